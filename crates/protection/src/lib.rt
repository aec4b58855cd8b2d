// Protected parents, note 7 of document 02: parents that may never swallow their children.
//
// They come as a rising list of zuniqs, lent as a slice; entries may lie inside one another. A merging
// call checks its list once, and asks for a parent only where its children would otherwise be merged.
//
// Refused: a listed value that is not a valid zuniq, or not above the one before (number 15, place: its
// index).
#![tactic(auto)]

ghost use Rattle.std.specs.Prelude.{◌≡◌, ◌≤◌, ◌<◌, ⊤};
ghost use Rattle.protection.specs.Protected.{RisingList};

use refusal::Refusal;
use std::alloc::AllocError;
use zuniq::{Decoded, ZUniqHashT};

// A list of protected parents that has been checked, or one that is known to rise.
pub struct Protected<'a, Z: ZUniqHashT> {
    pub zuniqs: &'a [Z],
    pub ghost rising: { RisingList (Z.numbers zuniqs.now) },
}

// By hand, since a struct with a fact derives neither.
impl<'a, Z: ZUniqHashT> Copy for Protected<'a, Z> {}

impl<'a, Z: ZUniqHashT> Clone for Protected<'a, Z> {
    ghost is_clone = { λ p q. q.zuniqs.now ≡ p.zuniqs.now };

    ghost is_infallible = { λ _. ⊤ };

    fn clone(&self) -> Result<Self, AllocError> {
        Ok(*self)
    }
}

impl<'a, Z: ZUniqHashT> Protected<'a, Z> {
    ghost use Rattle.std.specs.Result.{MatchResult};
    ghost use Rattle.std.proofs.Math.Option.{none, some};
    ghost use Rattle.zuniq.specs.Cells.{n_hash};
    ghost use Rattle.protection.specs.Protected.{is_protected, protected_refusal};

    // Row 15. Every zuniq is above 0, so that the first has one before it too.
    pub fn check(zuniqs: &'a [Z]) -> Result<Protected<'a, Z>, Refusal>
        ensures { MatchResult result (λ p. (p.zuniqs.now ≡ zuniqs.now) × (protected_refusal Z.MAX_DEPTH (Z.numbers zuniqs.now) ≡ none)) (λ r. protected_refusal Z.MAX_DEPTH (Z.numbers zuniqs.now) ≡ some r) }
    {
        let mut before = 0;
        for (i, zuniq) in zuniqs.iter().enumerate() {
            let Decoded::Cell(_) = Z::from_zuniq(*zuniq) else {
                return Err(Refusal::InvalidProtected(i));
            };
            let number = zuniq.as_u64();
            if number <= before {
                return Err(Refusal::InvalidProtected(i));
            }
            before = number;
        }
        Ok(Protected { zuniqs })
    }

    // Whether a cell is one of the protected parents.
    pub fn contains(&self, depth: u8, hash: u64) -> bool
        requires { (depth ≤ Z.MAX_DEPTH) × (hash < n_hash depth) }
        ensures { result ≡ is_protected Z.MAX_DEPTH (Z.numbers self.now.zuniqs.now) depth hash }
    {
        let number = Z::to_zuniq_unchecked(depth, hash).as_u64();
        self.zuniqs
            .binary_search_by_key(&number, |zuniq| zuniq.as_u64())
            .is_ok()
    }
}
