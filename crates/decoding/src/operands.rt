//! The operands of a command, read from the front.

ghost use Rattle.std.specs.Prelude.{◌≡◌, ◌<◌, [], ◌∷◌, length, MatchOption, ◌≢◌};
ghost use Rattle.decoding.specs.Operands.{Taken};
ghost use Rattle.stream.specs.Spelling.{le16, le32, sensitivities};

use auction::bounds::MOST_ZONES;
use stream::Command;

/// The operands that are still to be read.
#[derive(Clone, Copy)]
pub(crate) struct Operands<'a> {
    pub(crate) rest: &'a [u8],
}

impl Operands<'_> {
    /// The next bytes, if there are so many.
    fn bytes<const N: usize>(&mut self) -> Option<[u8; N]>
        ensures { MatchOption result (length self.old.rest.now < N) (λ bytes. Taken N bytes self.old.rest.now self.new.rest.now) }
    {
        let (first, rest) = self.rest.split_first_chunk()?;
        self.rest = rest;
        Some(*first)
    }

    /// The next byte.
    pub(crate) fn byte(&mut self) -> Option<u8>
        ensures { MatchOption result (length self.old.rest.now < 1) (λ byte. self.old.rest.now ≡ byte ∷ self.new.rest.now) }
    {
        let (first, rest) = self.rest.split_first()?;
        self.rest = rest;
        Some(*first)
    }

    /// The next number of two bytes.
    // `two` and `four` stay apart: no trait of std joins the number types' `from_le_bytes`, and one of `num_traits` would be a crate for two lines.
    #[tactic(auto, unfolding(stream::specs::Spelling::le16), using(std::proofs::lemmas::Nat::le_bytes_2))]
    pub(crate) fn two(&mut self) -> Option<u16>
        ensures { MatchOption result (length self.old.rest.now < 2) (λ number. Taken 2 (le16 number) self.old.rest.now self.new.rest.now) }
    {
        let bytes = self.bytes()?;
        Some(u16::from_le_bytes(bytes))
    }

    /// The next number of four bytes.
    #[tactic(auto, unfolding(stream::specs::Spelling::le32), using(std::proofs::lemmas::Nat::le_bytes_4))]
    pub(crate) fn four(&mut self) -> Option<u32>
        ensures { MatchOption result (length self.old.rest.now < 4) (λ number. Taken 4 (le32 number) self.old.rest.now self.new.rest.now) }
    {
        let bytes = self.bytes()?;
        Some(u32::from_le_bytes(bytes))
    }

    /// The next row of sensitivities.
    pub(crate) fn row(&mut self) -> Option<[i16; MOST_ZONES]>
        ensures { MatchOption result (length self.old.rest.now < 48) (λ row. Taken 48 (sensitivities row) self.old.rest.now self.new.rest.now) }
    {
        let mut row = [0; MOST_ZONES];
        for sensitivity in &mut row {
            *sensitivity = self.two()?.cast_signed();
        }
        Some(row)
    }

    /// The command, where no operands are left.
    pub(crate) fn whole(&self, command: Command) -> Option<Command>
        ensures { MatchOption result (length self.now.rest.now ≢ 0) (λ same. (same ≡ command) × (self.now.rest.now ≡ [])) }
    {
        self.rest.is_empty().then_some(command)
    }
}
