// What the printing program prints of a job sheet: the lines of the tie rule's plan, or the refusal.
#![tactic(auto)]

ghost use Rattle.std.specs.Prelude.{◌≡◌};
ghost use Rattle.planner.specs.Planning.{memory_after};
ghost use Rattle.text.specs.Texts.{text_of};
ghost use Rattle.plan_text.specs.Printed.{longest_card};
ghost use Rattle.report.specs.Report.{report_of};

use plan_text::LONGEST_CARD;
use text::Text;

// What is printed of a sheet: its plan's lines, at most 1083 bytes, or the refusal. Working memory is lent as for planning.
pub fn report(sheet: &[u8], work: &mut [u8]) -> Text
    ensures text { result ≡ text_of (report_of sheet.now) }
    ensures work { work.new ≡ memory_after sheet.now longest_card work.old }
{
    let mut card = [0u8; LONGEST_CARD];
    match planner::try_plan(sheet, &mut card, work) {
        Ok(()) => plan_text::plan_lines(sheet, &card),
        Err(refusal) => plan_text::refused_line(refusal.number()),
    }
}
