use crate::{Expr, ExprNode, Stmt, StmtNode, Ty, TyNode};
use scc_base::{Name, Place};
use scc_bits::Kind;
use std::test::Fail;

const PLACE: Place = Place { file: 1, at: 7 };

fn is_named(e: &Expr, name: u32) -> bool {
    matches!(e.node.get(), ExprNode::Ident(Name(n)) if *n == name)
}

fn is_empty(s: &Stmt) -> bool {
    matches!(s.node.get(), StmtNode::Empty)
}

fn is_bool(t: &Ty) -> bool {
    matches!(t.node.get(), TyNode::Number(Kind::Bool))
}

#[test]
fn makes_nodes(rt: HostRuntime) -> Result<(), Fail> {
    let expression = Expr::new(rt.alloc(), PLACE, ExprNode::Ident(Name(3)))?;
    assert_eq!(rt; expression.place, PLACE);
    assert!(rt; is_named(&expression, 3));
    let statement = Stmt::new(rt.alloc(), PLACE, StmtNode::Empty)?;
    assert_eq!(rt; statement.place, PLACE);
    assert!(rt; is_empty(&statement));
    let whole = Ty::new(rt.alloc(), PLACE, true, TyNode::Number(Kind::Bool))?;
    assert_eq!(rt; whole.place, PLACE);
    assert!(rt; whole.constant);
    assert!(rt; is_bool(&whole));
    Ok(())
}
