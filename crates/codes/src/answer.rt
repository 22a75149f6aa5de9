// An answer for C: one conversion for each kind of answer gives document 01's number and values, case by case.
// refusal is document 01's number, or 0; beside a number every other field is 0, here and in cut.rt.
ghost use Rattle.std.specs.Prelude.{◌≡◌};
ghost use Rattle.codes.specs.Codes.{outcome_code, truth_code, amount_code, perhaps_code};

use document::refusal::Refusal;

// Done, where refusal is 0.
#[repr(C)]
#[derive(Clone, Copy)]
pub struct DoneAnswer {
    pub refusal: u64,
}

// Yes or no.
#[repr(C)]
#[derive(Clone, Copy)]
pub struct TruthAnswer {
    pub refusal: u64,
    pub yes: bool,
}

// A number.
#[repr(C)]
#[derive(Clone, Copy)]
pub struct NumberAnswer {
    pub refusal: u64,
    pub value: u64,
}

// A number where there is one: else value is 0.
#[repr(C)]
#[derive(Clone, Copy)]
pub struct OptionalAnswer {
    pub refusal: u64,
    pub has: bool,
    pub value: u64,
}

impl From<Result<(), Refusal>> for DoneAnswer {
    ghost from_gives = { λ a r. r ≡ outcome_code a };

    fn from(a: Result<(), Refusal>) -> DoneAnswer {
        let refusal = match a {
            Ok(()) => 0,
            Err(n) => n.number(),
        };
        DoneAnswer { refusal }
    }
}

impl From<Result<bool, Refusal>> for TruthAnswer {
    ghost from_gives = { λ a r. r ≡ truth_code a };

    fn from(a: Result<bool, Refusal>) -> TruthAnswer {
        match a {
            Ok(yes) => TruthAnswer { refusal: 0, yes },
            Err(n) => TruthAnswer {
                refusal: n.number(),
                yes: false,
            },
        }
    }
}

impl From<Result<u64, Refusal>> for NumberAnswer {
    ghost from_gives = { λ a r. r ≡ amount_code a };

    fn from(a: Result<u64, Refusal>) -> NumberAnswer {
        match a {
            Ok(value) => NumberAnswer { refusal: 0, value },
            Err(n) => NumberAnswer {
                refusal: n.number(),
                value: 0,
            },
        }
    }
}

impl From<Result<Option<u64>, Refusal>> for OptionalAnswer {
    ghost from_gives = { λ a r. r ≡ perhaps_code a };

    fn from(a: Result<Option<u64>, Refusal>) -> OptionalAnswer {
        match a {
            Ok(Some(value)) => OptionalAnswer {
                refusal: 0,
                has: true,
                value,
            },
            Ok(None) => OptionalAnswer {
                refusal: 0,
                has: false,
                value: 0,
            },
            Err(n) => OptionalAnswer {
                refusal: n.number(),
                has: false,
                value: 0,
            },
        }
    }
}
