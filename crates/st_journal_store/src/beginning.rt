//! What a list of changes leads on from.
use std::marker::Brand;

/// The state that a list of changes begins with. Each call of a program picks it.
pub trait Beginning {
    ghost use Rattle.std.specs.declared.alloc.Global.{Global};
    ghost use Rattle.st_core.specs.State.{State};

    ghost first: { State Global };
}

impl Beginning for Brand {
    ghost use Rattle.st_core.specs.State.{first_state};
    ghost use Rattle.std.specs.Prelude.{[]};

    ghost first = { first_state [] [] };
}

/// How often the disk of a journal had failed or refused when a service took it. Each call of a program picks it.
pub trait Since {
    ghost use Rattle.std.specs.Prelude.{ℕ};

    ghost faults: { ℕ };
}

impl Since for Brand {
    ghost faults = { 0 };
}
