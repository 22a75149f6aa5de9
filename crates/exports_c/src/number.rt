// The pure numbers, for C: each calls the entry of exports that it is named for, under that one's clauses.
ghost use Rattle.std.specs.Prelude.{◌≡◌};
ghost use Rattle.numbers.specs.Budget.{slots_for_budget, file_bounded_max_id};

use exports::number;

// The slots that a budget of bytes buys.
#[unsafe(no_mangle)]
pub extern "C" fn bp_slots_for_budget(bytes: u64) -> u64
    ensures { result ≡ slots_for_budget bytes }
{
    number::bp_slots_for_budget(bytes)
}

// The highest id that a file of this length allows, where it claims one.
#[unsafe(no_mangle)]
pub extern "C" fn bp_file_bounded_max_id(claim: i64, length: u64, per: u64) -> i64
    ensures { result ≡ file_bounded_max_id claim length per }
{
    number::bp_file_bounded_max_id(claim, length, per)
}
