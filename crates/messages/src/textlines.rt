// A line of a text.
ghost use Rattle.std.specs.Prelude.{◌≡◌};
ghost use Rattle.columns.specs.Lines.{lines_of};
ghost use Rattle.messages.specs.Lines.{line_at};

// Line n of a text, from 0; empty past the last.
#[tactic(auto, using(crate::proofs::textlines::Lines::line_passed, crate::proofs::textlines::Lines::line_first))]
pub fn line_of(text: &[u8], n: usize) -> &[u8]
    ensures { result.now ≡ line_at (lines_of text.now) n }
{
    let mut rest = text;
    for _passed in 0..n {
        rest = columns::rest_lines(rest);
    }
    columns::first_line(rest)
}
