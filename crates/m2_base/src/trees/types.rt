//! The trees of types.
use crate::trees::expressions::{Expr, Label};
use crate::trees::{Ident, Qual};

/// A type and its first token.
#[cycle(types)]
pub struct TypeExpr {
    pub at: u32,
    pub form: TypeForm,
}

impl Drop for TypeExpr {
    #[cycle(types)]
    fn drop(self) {
        let TypeExpr { at: _, form: _ } = self;
    }
}

/// What a type is.
#[cycle(types)]
#[derive(Drop)]
pub enum TypeForm {
    Named(Qual),
    Enum(Vec<Ident>),
    Sub {
        base: Option<Qual>,
        low: Expr,
        high: Expr,
    },
    Array {
        index: Vec<TypeExpr>,
        of: Box<TypeExpr>,
    },
    Rec(Vec<FieldList>),
    Set(Box<TypeExpr>),
    Pointer(Box<TypeExpr>),
    Proc {
        formals: Vec<Formal>,
        result: Option<Qual>,
    },
}

/// A parameter of a procedure type: its mode, whether it is an open array, and its type.
#[derive(Clone, Copy)]
pub struct Formal {
    pub by_ref: bool,
    pub is_open: bool,
    pub of: Qual,
}

/// Fields of one type, or a variant part with what stands after ELSE.
#[cycle(types)]
#[derive(Drop)]
pub enum FieldList {
    Plain {
        names: Vec<Ident>,
        typ: TypeExpr,
    },
    Cases {
        tag: Option<Ident>,
        of: Qual,
        arms: Vec<VariantArm>,
        other: Vec<FieldList>,
    },
}

/// The labels of a variant, and its fields.
#[cycle(types)]
pub struct VariantArm {
    pub labels: Vec<Label>,
    pub fields: Vec<FieldList>,
}

impl Drop for VariantArm {
    #[cycle(types)]
    fn drop(self) {
        let VariantArm {
            labels: _,
            fields: _,
        } = self;
    }
}
