// Lists of zuniqs that are read by place.
ghost use Rattle.std.specs.Prelude.{◌≡◌, ◌<◌, ℕ, List, length, get_or};

use zuniq::ZUniqHashT;

// Lent zuniqs, or rows of bytes in which they stand.
pub trait ZuniqList: Copy {
    type Zuniq: ZUniqHashT;

    ghost numbers: { Self → List ℕ };

    fn n_zuniqs(self) -> usize
        ensures { result ≡ length (numbers self) };

    fn zuniq_at(self, place: usize) -> Self::Zuniq
        requires { place < length (numbers self) }
        ensures { Self.Zuniq.number result ≡ get_or (numbers self) place 0 };
}

impl<'a, Z: ZUniqHashT> ZuniqList for &'a [Z] {
    type Zuniq = Z;

    ghost numbers = { λ s. Z.numbers s.now };

    fn n_zuniqs(self) -> usize {
        self.len()
    }

    fn zuniq_at(self, place: usize) -> Z {
        self[place]
    }
}
