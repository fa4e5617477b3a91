// A text that passed the token layer, with the numbers of parts of its lists.
ghost use Rattle.std.specs.Prelude.{◌≤◌, length, map};
ghost use Rattle.forms.specs.Surveys.{Known, told};

mod making;

use super::part_count::PartCount;

#[derive(Drop)]
pub struct Source<'t> {
    pub text: &'t [u8],
    // for each place where the parts of a list begin how many it has, where that is known; seven stands for more;
    // by place and in a fixed array, since a library takes no heap, and a text has no such places side by side
    counts: [PartCount; 65536],
    ghost short: { length text.now ≤ 65535 },
    ghost right: { Known text.now (map told counts) },
}
