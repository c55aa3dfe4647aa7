//! The first worked row of `break` in a `upc_forall`.
use affinity_checker::forall_fault;
use std::test::Fail;
use upc_lexer::lex;
use upc_macros::expand;
use upc_parser::parse;
use upc_text::{Code, Place, Refusal};

#[test]
fn break_out_of_a_upc_forall(rt: HostRuntime) -> Result<(), Fail> {
    let alloc = rt.alloc();
    let source = b"int main(void){int i;upc_forall(i=0;i<2;i++;i){break;}return 0;}";
    let lexed = lex(alloc, source)?;
    let tokens = expand(alloc, source, &lexed)?;
    let unit = parse(alloc, tokens.as_slice())?;
    let refusal = Refusal {
        place: Place {
            line: 1,
            column: 48,
        },
        code: Code::Typing(24),
    };
    assert_eq!(rt; forall_fault(&unit), Some(refusal));
    Ok(())
}
