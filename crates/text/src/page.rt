// A page to write on: a lent buffer, and the place in it that is written next.
ghost use Rattle.std.specs.Prelude.{◌+◌, ◌≤◌, length};
ghost use Rattle.text.specs.Number.{decimal};
ghost use Rattle.text.specs.device.Page.{Put};

use crate::number::put_decimal;
use crate::words::put_words;

#[derive(Drop)]
pub struct Page<'a> {
    pub out: &'a mut [u8],
    pub at: usize,
}

impl Page<'_> {
    pub fn words(&mut self, words: &[u8])
        requires { self.old.at + length words.now ≤ length self.old.out.now }
        ensures { Put (length words.now) self.old self.new words.now }
    {
        self.at = put_words(self.out, self.at, words);
    }

    pub fn decimal(&mut self, n: u64)
        requires { self.old.at + length (decimal n) ≤ length self.old.out.now }
        ensures { Put (length (decimal n)) self.old self.new (decimal n) }
    {
        self.at = put_decimal(self.out, self.at, n);
    }
}
