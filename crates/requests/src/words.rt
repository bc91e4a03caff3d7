// The words of a line: a word ends at the next space or at the line's end. They are taken one by one.
ghost use Rattle.std.specs.Prelude.{◌≡◌, ◌∷◌, [], ◌==◌, MatchOption, position};
ghost use Rattle.requests.specs.Words.{words_of};

// What stands behind the words that were taken, or nothing where the last one was.
#[derive(Clone, Copy)]
pub struct Words<'a> {
    rest: Option<&'a [u8]>,
}

// The place of the first space.
fn space_in(rest: &[u8]) -> Option<usize>
    ensures { result ≡ position (λ b. b == 32) rest.now }
{
    rest.iter().position(|byte| *byte == b' ')
}

impl<'a> Words<'a> {
    ghost use Rattle.requests.specs.Inner.Left.{left};

    pub fn of(line: &'a [u8]) -> Self
        ensures { left result ≡ words_of line.now }
    {
        Words { rest: Some(line) }
    }

    // The next word, if there is one.
    pub fn take_word(&mut self) -> Option<&'a [u8]>
        ensures { MatchOption result (left self.old ≡ []) (λ w. left self.old ≡ w.now ∷ left self.new) }
    {
        let rest = self.rest?;
        match space_in(rest) {
            Some(end) => {
                self.rest = Some(&rest[end + 1..]);
                Some(&rest[..end])
            }
            None => {
                self.rest = None;
                Some(rest)
            }
        }
    }
}
