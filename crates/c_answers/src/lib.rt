// Answers as numbers, for callers in other languages (SHEETS 11.1, 11.2).
#![tactic(auto)]

ghost use Rattle.std.specs.Prelude.{◌≡◌, refl, ℕ, Result, Ok, Err};
ghost use Rattle.sheet.specs.Answer.{answered};
ghost use Rattle.sheet.specs.Returned.{Returned, gives, refused};
ghost use Rattle.c_answers.specs.Answers.{told, answered_in_numbers};

use sheet::Refusal;

// A refusal of which the numbers alone are known (SHEETS 11.1): one of the table's or any other, and the place, length or figure beside it.
#[derive(Clone, Copy)]
pub struct Numbers {
    pub number: u8,
    pub place: usize,
}

// What a refused call may give: a line of the table (SHEETS 3.1), or numbers.
pub trait Refused {
    // An answer with such refusals, in the numbers of SHEETS 3.1 and 3.11.
    ghost returned: { Result ℕ Self → Returned };

    // Its two numbers.
    fn numbers(self) -> Numbers
        ensures { returned (Err self) ≡ refused result.number result.place };

    ghost as_given: { (n : ℕ) → returned (Ok n) ≡ gives n };
}

impl Refused for Refusal {
    ghost returned = { answered };

    ghost as_given = { λ n. refl };

    fn numbers(self) -> Numbers {
        Numbers {
            number: u8::from(self.kind),
            place: self.place,
        }
    }
}

impl Refused for Numbers {
    ghost returned = { answered_in_numbers };

    ghost as_given = { λ n. refl };

    fn numbers(self) -> Numbers {
        self
    }
}

// The two numbers of an answer: the first is handed back, the other stored. Two numbers, since callers of C know no `Result`.
pub fn tell<E: Refused>(answer: Result<usize, E>, second: &mut u64) -> u64
    ensures { (result, second.new) ≡ told (E.returned answer) }
{
    match answer {
        Ok(n) => {
            *second = n as u64;
            0
        }
        Err(error) => {
            let refusal = error.numbers();
            *second = refusal.place as u64;
            u64::from(refusal.number)
        }
    }
}
