// Message 5 read part by part (document 01, 'Messages' and 'Sessions').
#![tactic(auto)]

pub mod opening;
mod place;

ghost use Rattle.std.specs.Prelude.{◌≡◌, ◌-◌, ◌≤◌, length};
ghost use Rattle.reader.specs.Taken.{taken, behind};

use place::copy_part;

// 'a reader that holds the lent message and a place'
#[derive(Clone, Copy)]
pub struct Reader<'a> {
    pub message: &'a [u8],
    pub at: usize,
}

impl<'a> Reader<'a> {
    // A reader at the start of a message.
    pub fn start(message: &'a [u8]) -> Self
        ensures { (result.message ≡ message.entry) × (result.at ≡ 0) }
    {
        Reader { message, at: 0 }
    }

    // How many bytes are left.
    pub fn left(&self) -> usize
        requires { self.now.at ≤ length self.now.message.now }
        ensures { result ≡ length self.now.message.now - self.now.at }
    {
        self.message.len() - self.at
    }

    // The front of out becomes the next bytes, as many as out has room for and are left; the reader then stands behind them.
    pub fn take(&mut self, out: &mut [u8])
        requires { self.old.at ≤ length self.old.message.now }
        ensures { (self.new.message ≡ self.old.message) × ((self.new.at ≡ behind self.old.message.now self.old.at out.old)
            × (out.new ≡ taken self.old.message.now self.old.at out.old)) }
    {
        self.at = copy_part(self.message, self.at, out);
    }
}
