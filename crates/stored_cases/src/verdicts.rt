// What comes of a line.
ghost use Rattle.std.specs.Prelude.{◌≡◌, ◌↔◌, IsTrue};
ghost use Rattle.stored_cases.specs.declared.verdicts.Verdict.TheVariants.{Agrees};

// What comes of a case that ran.
#[derive(Clone, Copy, Debug, PartialEq, Eq)]
pub enum Verdict {
    Agrees,
    Disagrees,
}

// Why a line has no verdict.
#[derive(Clone, Copy, Debug, PartialEq, Eq)]
pub enum NoVerdict {
    NotACase,
}

// What a line gives.
pub type Outcome = Result<Verdict, NoVerdict>;

// Of a comparison.
impl From<bool> for Verdict {
    ghost from_gives = { λ agrees verdict. (verdict ≡ Agrees) ↔ IsTrue agrees };

    fn from(agrees: bool) -> Verdict {
        if agrees {
            Verdict::Agrees
        } else {
            Verdict::Disagrees
        }
    }
}

impl Verdict {
    // Of two comparisons of one case: it agrees where both do.
    pub fn and(self, other: Verdict) -> Verdict
        ensures { (result ≡ Agrees) ↔ ((self ≡ Agrees) × (other ≡ Agrees)) }
    {
        match self {
            Verdict::Agrees => other,
            Verdict::Disagrees => self,
        }
    }
}
