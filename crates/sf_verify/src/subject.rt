use std::marker::Brand;

/// A program whose procedures are searched, as types name it. Of a value behind a lock nothing is
/// known but what its type says, so the type says of which program its places are.
pub(crate) trait Subject {
    ghost use Rattle.sf_rules.specs.Setting.{Setting};

    // The program, with what rows need of it.
    ghost setting: { Setting };
}

/// A call that passes `Brand` picks the program. Without a pick it is the one of no file.
impl Subject for Brand {
    ghost use Rattle.std.specs.Prelude.{[]};

    ghost setting = { record {
      program = record { fields = []; resources = []; procedures = [] };
      sets = record { takes = []; holds = []; free = [] };
      ordered = λ a. a;
    } };
}
