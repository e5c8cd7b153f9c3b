// The values of an accepted call, in document 01's order.
ghost use Rattle.std.specs.Prelude.{◌≡◌, List, ℕ, [], ◌∷◌};
ghost use Rattle.numbers.specs.Told.{flavor_number};
ghost use Rattle.pair_table.specs.Told.{change_values};
ghost use Rattle.bridgenook.specs.Exports.{padded};

use pair_table::PairTable;
use refusals::units::StreamLength;
use unions::{CpcUnion, Summary};

// What an accepted call answers: up to six values, and zeros for the rest.
pub trait Values {
    ghost values: { Self → List ℕ };

    fn values(self) -> [u64; 6]
        ensures { result ≡ padded 6 (values self) };
}

impl Values for () {
    ghost values = { λ _. [] };

    fn values(self) -> [u64; 6] {
        [0; 6]
    }
}

impl Values for u64 {
    ghost values = { λ n. n ∷ [] };

    fn values(self) -> [u64; 6] {
        [self, 0, 0, 0, 0, 0]
    }
}

// A phase's part of a book set: where it starts, and its length.
#[derive(Clone, Copy)]
pub struct Part(pub usize);

impl Values for Part {
    ghost values = { λ part. part.0 ∷ 256 ∷ [] };

    fn values(self) -> [u64; 6] {
        [self.0 as u64, 256, 0, 0, 0, 0]
    }
}

impl Values for StreamLength {
    ghost values = { λ stream. stream.bits.0 ∷ stream.words.0 ∷ [] };

    fn values(self) -> [u64; 6] {
        [self.bits.0, self.words.0, 0, 0, 0, 0]
    }
}

// The record of a table.
impl Values for PairTable {
    ghost values = { λ table. table.lg ∷ table.valid ∷ table.items ∷ [] };

    fn values(self) -> [u64; 6] {
        let lg = u64::from(self.lg);
        let valid = u64::from(self.valid);
        let items = u64::from(self.items);
        [lg, valid, items, 0, 0, 0]
    }
}

// True with the new record, or false.
impl Values for Option<PairTable> {
    ghost values = { change_values };

    fn values(self) -> [u64; 6] {
        match self {
            Some(table) => {
                let [lg, valid, items, ..] = table.values();
                [1, lg, valid, items, 0, 0]
            }
            None => [0; 6],
        }
    }
}

// Coupons, flavor, offset, first interesting column, number of pairs.
impl Values for Summary {
    ghost values = { λ parts. parts.coupons ∷ flavor_number parts.flavor ∷ parts.offset ∷ parts.column ∷ parts.pairs ∷ [] };

    fn values(self) -> [u64; 6] {
        let coupons = u64::from(self.coupons);
        let flavor = u64::from(self.flavor);
        let offset = u64::from(self.offset);
        let column = u64::from(self.column);
        let pairs = u64::from(self.pairs);
        [coupons, flavor, offset, column, pairs, 0]
    }
}

// Configured lg_k, present lg_k, seed.
impl Values for CpcUnion {
    ghost values = { λ state. state.lg ∷ state.present ∷ state.seed ∷ [] };

    fn values(self) -> [u64; 6] {
        let lg = u64::from(self.lg);
        let present = u64::from(self.present);
        [lg, present, self.seed, 0, 0, 0]
    }
}
