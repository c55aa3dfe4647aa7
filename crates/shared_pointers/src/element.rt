//! The element that a pointer stands for.

ghost use Rattle.std.specs.Prelude.{ℤ};
ghost use Rattle.block_layout.specs.Pointers.{StandsFor};
ghost use Rattle.shared_pointers.specs.layer.Ranges.{IsPointer, IsTarget, IsThreads};

use block_layout::SharedPtr;

/// Every pointer stands for some element with some shift. A law: it does nothing.
pub fn stands_for_some_element(p: &SharedPtr, block: u32, size: u32, threads: u32)
    requires pointer { IsPointer p.now block threads }
    requires target { IsTarget block size }
    requires some_threads { IsThreads threads }
    ensures { (e : ℤ) × ((d : ℤ) × StandsFor p.now e d block size threads) }
{}
