// A whole file, and a whole holding.
ghost use Rattle.std.specs.Prelude.{◌≡◌};
ghost use Rattle.meaning.specs.Table.{scottish};
ghost use Rattle.meaning.specs.Load.{check_file, check_holding};
ghost use Rattle.meaning.specs.Answers.{number_list};
ghost use Rattle.answers.specs.Meant.{three_list};

use answers::numbers::{Answer, Verdict, in_order, three};
use holding::check::check_holding;
use volume::check::check_file;

// The check of a file.
pub fn muiwash_check_file(file: &[u8], answer: &mut [u64; Answer::NUMBERS])
    ensures { answer.new ≡ number_list (check_file scottish file.now) }
{
    *answer = in_order(Answer::from(check_file(file)));
}

// The check of a holding.
pub fn muiwash_check_holding(holding: &[u8], answer: &mut [u64; 3])
    ensures { answer.new ≡ three_list (check_holding scottish holding.now) }
{
    *answer = three(Verdict::from(check_holding(holding)));
}
