// The kinds of brackets with their bytes, and the stack of open ones, which matching and splitting share.
ghost use Rattle.std.specs.Prelude.{◌≡◌, [], ◌∷◌, drop, OnErr};
ghost use Rattle.code.specs.Bracket.{opening_of, closing_of, is_opening, is_closing, is_bracket, kind_of, closer, is_empty, top_is, push, close, taken, outcome};

use crate::{Bracket, BracketError, MAX_DEPTH, OpenBrackets};

impl Bracket {
    pub const ROUND_OPEN: u8 = b'(';

    pub const ROUND_CLOSE: u8 = b')';

    pub const SQUARE_OPEN: u8 = b'[';

    pub const SQUARE_CLOSE: u8 = b']';

    pub const CURLY_OPEN: u8 = b'{';

    pub const CURLY_CLOSE: u8 = b'}';

    pub const ANGLE_OPEN: u8 = b'<';

    pub const ANGLE_CLOSE: u8 = b'>';

    pub fn opening(self) -> u8
        ensures { result ≡ opening_of self }
    {
        match self {
            Bracket::Round => Bracket::ROUND_OPEN,
            Bracket::Square => Bracket::SQUARE_OPEN,
            Bracket::Curly => Bracket::CURLY_OPEN,
            Bracket::Angle => Bracket::ANGLE_OPEN,
        }
    }

    pub fn closing(self) -> u8
        ensures { result ≡ closing_of self }
    {
        match self {
            Bracket::Round => Bracket::ROUND_CLOSE,
            Bracket::Square => Bracket::SQUARE_CLOSE,
            Bracket::Curly => Bracket::CURLY_CLOSE,
            Bracket::Angle => Bracket::ANGLE_CLOSE,
        }
    }

    // The kind of an opening bracket; it is asked of no other byte, so that it needs no Option.
    pub fn opened_by(b: u8) -> Bracket
        ensures { result ≡ kind_of b }
    {
        match b {
            Bracket::ROUND_OPEN => Bracket::Round,
            Bracket::SQUARE_OPEN => Bracket::Square,
            Bracket::CURLY_OPEN => Bracket::Curly,
            _ => Bracket::Angle,
        }
    }

    // The byte that closes what an opening bracket opens.
    pub fn partner(b: u8) -> u8
        ensures { result ≡ closer b }
    {
        Bracket::opened_by(b).closing()
    }

    // Whether a byte opens one of the three pairs.
    pub fn opens(b: u8) -> bool
        ensures { result ≡ is_opening b }
    {
        matches!(
            b,
            Bracket::ROUND_OPEN | Bracket::SQUARE_OPEN | Bracket::CURLY_OPEN
        )
    }

    // Whether a byte closes one of the three pairs.
    pub fn closes(b: u8) -> bool
        ensures { result ≡ is_closing b }
    {
        matches!(
            b,
            Bracket::ROUND_CLOSE | Bracket::SQUARE_CLOSE | Bracket::CURLY_CLOSE
        )
    }

    // Whether a byte is of one of the three pairs.
    pub fn is_one(b: u8) -> bool
        ensures { result ≡ is_bracket b }
    {
        Bracket::opens(b) || Bracket::closes(b)
    }
}

impl OpenBrackets {
    pub fn new() -> Self
        ensures { result ≡ [] }
    {
        OpenBrackets {
            closing: [0; MAX_DEPTH],
            depth: 0,
        }
    }

    // One open bracket, which b closes.
    pub fn one(b: u8) -> Self
        ensures { result ≡ b ∷ [] }
    {
        let mut closing = [0; MAX_DEPTH];
        closing[0] = b;
        OpenBrackets { closing, depth: 1 }
    }

    pub fn is_empty(&self) -> bool
        ensures { result ≡ is_empty self.now }
    {
        self.depth == 0
    }

    // Whether b closes the innermost bracket.
    pub fn is_innermost(&self, b: u8) -> bool
        ensures { result ≡ top_is b self.now }
    {
        0 < self.depth && self.closing[self.depth - 1] == b
    }

    // One more, which b closes; where there is no room, they stay as they were.
    pub fn push(&mut self, b: u8) -> Result<(), BracketError>
        ensures value { outcome result self.new ≡ push b self.old }
        ensures kept { OnErr result (self.new ≡ self.old) }
    {
        if MAX_DEPTH <= self.depth {
            return Err(BracketError::Deep);
        }
        self.closing[self.depth] = b;
        self.depth += 1;
        Ok(())
    }

    // The innermost less, if there is one. The place that it leaves is zero again.
    pub fn pop(&mut self)
        ensures { self.new ≡ drop 1 self.old }
    {
        if 0 < self.depth {
            self.depth -= 1;
            self.closing[self.depth] = 0;
        }
    }

    // The innermost is closed by b; where b closes it not, they stay as they were.
    pub fn close(&mut self, b: u8) -> Result<(), BracketError>
        ensures value { outcome result self.new ≡ close b self.old }
        ensures kept { OnErr result (self.new ≡ self.old) }
    {
        if !self.is_innermost(b) {
            return Err(BracketError::Wrong);
        }
        self.pop();
        Ok(())
    }

    // What a byte of code does, by the three pairs; where it is refused, they stay as they were.
    #[tactic(auto, unfolding(crate::specs::Bracket::taken))]
    pub fn take(&mut self, b: u8) -> Result<(), BracketError>
        ensures value { outcome result self.new ≡ taken self.old b }
        ensures kept { OnErr result (self.new ≡ self.old) }
    {
        if Bracket::opens(b) {
            self.push(Bracket::partner(b))
        } else if Bracket::closes(b) {
            self.close(b)
        } else {
            Ok(())
        }
    }
}
