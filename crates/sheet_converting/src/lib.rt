// An old sheet made a new one in the lent bytes; `convert_sheet` is the call open to a host. specs/Convert.antt says what it
// answers and leaves, specs/Theorems.antt that the new sheet says what the old one did.
#![tactic(auto)]

ghost use Rattle.std.specs.Prelude.{◌≡◌};
ghost use Rattle.sheet_converting.specs.Convert.{convert_reply, left};

use sheet_reading::read_sheet;
use sheet_writing::write_words;
use types::Refusal;
use words::Layout;

// Reads the sheet by the old rules, and writes the words of its nodes, in the new layout, over those that it has.
pub fn convert_sheet(sheet: &mut [u8]) -> Result<(), Refusal>
    ensures { left result sheet.new ≡ convert_reply sheet.old }
{
    let mut words = [0u32; 16384];
    let mut starts = [0u32; 4096];
    let Ok(old) = read_sheet(Layout::Old, sheet, &mut words, &mut starts) else {
        return Err(Refusal::OldSheetRefused);
    };
    let used = old.counters.words;
    write_words(&words[..used], sheet, old.end);
    Ok(())
}
