//! What a designator or an expression stands for.
use crate::rows::Place;

/// An operand. A type is the place of its row.
#[derive(Clone, Copy)]
pub enum Operand {
    /// A constant of a type, with its value.
    Constant(Place, i64),
    /// A string, by its name number and its length.
    StringConstant(u32, u32),
    /// A value of a type that isn't constant.
    Computed(Place),
    /// A variable of a type.
    Variable(Place),
    /// A type.
    NamedType(Place),
    /// A procedure, by the name of its row, its type, its number and its scope.
    Procedure(u32, Place, u32, u32),
    /// A standard procedure, by the number of its name.
    StandardProcedure(u32),
    /// A module, by its scope.
    ModuleName(u32),
    /// What is no constant, in a constant expression.
    NotConstant,
    /// What is in error.
    InError,
}

/// The kinds of operands that a constant's operator can have.
#[derive(Clone, Copy)]
pub enum FoldKind {
    Integer,
    Cardinal,
    Set,
    /// CHAR, enumerations, and what else is compared by its number.
    Ordinal,
    /// Whole constants that have neither type yet.
    Whole,
}
