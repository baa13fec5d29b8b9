// The two ways in which a sheet comes: its bytes (SHEETS 2.1), or records handed in (SHEETS 2.8).
#![tactic(auto)]

ghost use Rattle.sheet.specs.Listing.{Listing, listing};
ghost use Rattle.sheet.specs.Returned.{Returned};
ghost use Rattle.sheet.specs.Scan.{verdict_of, commands_of};
ghost use Rattle.sheet.specs.HandedIn.{handed_in, check_of};
ghost use Rattle.source.specs.Accepts.{Accepts};

use sheet::{Refusal, Sheet};

// What a sheet is taken from, by value.
pub trait Source {
    // What is said of it.
    ghost verdict: { Self → Returned };

    // Its records, in listed order.
    ghost records: { Self → Listing };

    // The records, if they are accepted.
    fn accept(self) -> Result<Sheet, Refusal>
        ensures { Accepts (verdict self) (records self) result };
}

impl<'a> Source for &'a [u8] {
    ghost verdict = { λ s. verdict_of s.now };

    ghost records = { λ s. listing (commands_of s.now) };

    fn accept(self) -> Result<Sheet, Refusal> {
        sheet_reader::read(self)
    }
}

impl Source for Sheet {
    ghost verdict = { check_of };

    ghost records = { handed_in };

    fn accept(self) -> Result<Sheet, Refusal> {
        sheet_writer::check(self)?;
        Ok(self)
    }
}
