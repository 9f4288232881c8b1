// A whole number as some columns of a word say it.
ghost use Rattle.std.specs.Prelude.{◌≡◌, ◌≤◌, pos, IfSome};
ghost use Rattle.columns.specs.Columns.{columns};
ghost use Rattle.fields.specs.Number.{contents_of, ranged};
ghost use Rattle.fields.specs.declared.Format.TheVariants as format;
ghost use Rattle.commandline.specs.Numbers.{number_in};

use fields::Format;

// The whole number in `width` columns of a word from column `from` on; none where there is none, or one above `high`.
pub fn number(word: &[u8], from: usize, width: usize, high: u32) -> Option<u32>
    ensures value { result ≡ number_in (ranged (pos 0) (pos high) (contents_of format.Whole (columns word.now from width))) }
    ensures within { IfSome result (λ n. n ≤ high) }
{
    fields::narrow_field(word, from, width, Format::Whole, high).ok()
}
