//! A number that only rises, and tokens of what it has reached.
ghost use Rattle.std.specs.Prelude.{◌≡◌, ◌≤◌, ℕ};
ghost use base.Fraction.{full_share};
ghost use base.Growing.{at_least, latest, numbers};
ghost use denote.Sharing.{said};

use std::marker::{Model, PhantomData};

/// A number that only rises. There is one of its name, and whoever holds it knows where it stands.
pub struct Watermark {
    marker: PhantomData<()>,
    pub ghost name: { ℕ },
    pub ghost at: { ℕ },
}

impl Model for Watermark {
    ghost also_owns = { λ w. latest numbers full_share w.name w.at };
}

/// The watermark of this name has come so far. It can be copied, and lasts.
pub struct Reached {
    marker: PhantomData<()>,
    pub ghost name: { ℕ },
    pub ghost at: { ℕ },
}

impl Model for Reached {
    ghost also_owns = { λ r. at_least numbers r.name r.at };

    ghost also_shares = { λ r _ κ. said (at_least numbers r.name r.at) κ };
}

impl Watermark {
    /// A new one, which stands at 0.
    pub fn new() -> Watermark
        ensures { result.at ≡ 0 }
    {
        Watermark {
            marker: PhantomData,
        }
    }

    /// It rises to a number.
    pub fn rise(&mut self, to: u64)
        requires { self.old.at ≤ to }
        ensures { (self.new.name ≡ self.old.name) × (self.new.at ≡ to) }
    {}

    /// That it has come where it stands.
    pub fn reached(&mut self) -> Reached
        ensures { (self.new ≡ self.old) × (result.name ≡ self.old.name) × (result.at ≡ self.old.at) }
    {
        Reached {
            marker: PhantomData,
        }
    }

    /// It stands no lower than it was known to have come.
    pub fn bounds(&mut self, reached: &Reached)
        requires { reached.now.name ≡ self.old.name }
        ensures { (self.new ≡ self.old) × (reached.now.at ≤ self.old.at) }
    {}
}

impl Reached {
    /// A copy.
    pub fn again(&self) -> Reached
        ensures { result ≡ self.now }
    {
        Reached {
            marker: PhantomData,
        }
    }
}

impl Drop for Watermark {
    fn drop(self) {
        let Self { marker: _ } = self;
    }
}

impl Drop for Reached {
    fn drop(self) {
        let Self { marker: _ } = self;
    }
}

unsafe impl Send for Watermark {}

unsafe impl Send for Reached {}

unsafe impl Sync for Reached {}
