// The parenthesis that matches an open one.
ghost use Rattle.std.specs.Prelude.{◌≡◌, ℕ, List, [], ◌∷◌, ◌≤◌, false, length, drop};
ghost use Rattle.code.specs.Code.{scan_at, onward};
ghost use Rattle.code.specs.Bracket.{is_empty};
ghost use Rattle.code.specs.Matching.{match_from, matching, Closes};
ghost use Rattle.code.specs.Marks.{Marked};

use crate::{Bracket, BracketError, CodeText, NoMatch, OpenBrackets, Piece};

impl CodeText<'_> {
    // The next code byte from a place on that is a bracket, or the text's end where there is none; code bytes that are no brackets change no match. Most bytes
    // are of words or blanks and are told by their class.
    fn next_bracket(&self, from: usize) -> usize
        requires { from ≤ length self.now.text.now }
        ensures value { (stack : List ℕ) → is_empty stack ≡ false →
            match_from stack (scan_at self.now.style self.now.text.now from).codes ≡ match_from stack (onward self.now.style self.now.text.now result) }
        ensures lower_bound { (from ≤ result) × (result ≤ length self.now.text.now) }
    {
        let text = self.text;
        let mut i = from;
        // by pieces
        while i < text.len() {
            if ascii::class::class_of(text[i]) != 0 {
                i += 1;
            } else if Bracket::is_one(text[i]) {
                return i;
            } else {
                match self.piece_at(i) {
                    Piece::Code => i += 1,
                    Piece::Hidden(n) => i += n,
                    Piece::OpenQuote | Piece::OpenComment => return text.len(),
                }
            }
        }
        i
    }

    // The match of a parenthesis that is open before a bracket at a place, or before the text's end. Only here a stack is made, as most arguments have no
    // brackets in them.
    fn match_nested(&self, first: usize) -> Result<usize, NoMatch>
        requires { first ≤ length self.now.text.now }
        ensures value { result ≡ match_from (41 ∷ []) (onward self.now.style self.now.text.now first) }
        ensures closes { Closes first (length self.now.text.now) result }
    {
        let text = self.text;
        let mut open = OpenBrackets::one(Bracket::ROUND_CLOSE);
        let mut i = first;
        // by brackets
        while i < text.len() {
            match open.take(text[i]) {
                Err(BracketError::Wrong) => return Err(NoMatch::Unmatched),
                Err(BracketError::Deep) => return Err(NoMatch::DeepAt(i)),
                Ok(()) if open.is_empty() => return Ok(i),
                Ok(()) => {}
            }
            i = self.next_bracket(i + 1);
        }
        Err(NoMatch::Unmatched)
    }

    // The match of a parenthesis that is open before a place, by the code up to a literal or comment without an end.
    pub fn match_open(&self, at: usize) -> Result<usize, NoMatch>
        requires { at ≤ length self.now.text.now }
        ensures value { result ≡ match_from (41 ∷ []) (scan_at self.now.style self.now.text.now at).codes }
        ensures closes { Closes at (length self.now.text.now) result }
    {
        let first = self.next_bracket(at);
        if ascii::byte_at(self.text, first) == Bracket::ROUND_CLOSE {
            return Ok(first);
        }
        self.match_nested(first)
    }

    // The match of a parenthesis that is open before a place, by the marks of the text; none where a literal or comment anywhere behind it has no end.
    pub fn find_matching_parenthesis(&self, at: usize, marks: &[u32]) -> Result<usize, NoMatch>
        requires { (at ≤ length self.now.text.now) × Marked self.now.style self.now.text.now marks.now }
        ensures value { result ≡ matching self.now.style at (drop at self.now.text.now) }
        ensures closes { Closes at (length self.now.text.now) result }
    {
        if self.is_clean(marks, at) {
            self.match_open(at)
        } else {
            Err(NoMatch::Unmatched)
        }
    }
}
