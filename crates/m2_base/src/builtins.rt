//! The standard procedures.
ghost use Rattle.std.specs.Prelude.{◌≡◌};
ghost use Rattle.m2_base.specs.Statics.Builtins.{builtin_of};

/// A standard procedure, in the order of the numbers of their names, which are 10 to 26.
#[derive(Clone, Copy)]
pub enum Builtin {
    Abs,
    Cap,
    Chr,
    Dec,
    Dispose,
    Excl,
    Halt,
    High,
    Inc,
    Incl,
    Max,
    Min,
    New,
    Odd,
    Ord,
    Size,
    Val,
}

/// The standard procedure whose name has this number; of other numbers nobody asks.
pub fn standard_procedure(name: u32) -> Builtin
    ensures { result ≡ builtin_of name }
{
    match name {
        10 => Builtin::Abs,
        11 => Builtin::Cap,
        12 => Builtin::Chr,
        13 => Builtin::Dec,
        14 => Builtin::Dispose,
        15 => Builtin::Excl,
        16 => Builtin::Halt,
        17 => Builtin::High,
        18 => Builtin::Inc,
        19 => Builtin::Incl,
        20 => Builtin::Max,
        21 => Builtin::Min,
        22 => Builtin::New,
        23 => Builtin::Odd,
        24 => Builtin::Ord,
        25 => Builtin::Size,
        _ => Builtin::Val,
    }
}
