//! A key with its survey.
ghost use Rattle.std.specs.Prelude.{◌≡◌, ◌≤◌};
ghost use Rattle.cascade.specs.Survey.{survey_of};

use crate::Survey;
use crate::walks::survey;
use values::{Key, Stage};

// A key with what it says before any byte of text.
#[derive(Clone, Copy)]
pub struct Surveyed {
    pub key: Key,
    pub survey: Survey,
    pub ghost is: { survey ≡ survey_of key.stages },
    pub ghost few: { survey.count ≤ 8 },
}

impl Surveyed {
    ghost use Rattle.std.specs.Prelude.{length};
    ghost use Rattle.cascade.specs.Keys.{active};

    #[tactic(auto, using(crate::proofs::Surveys::survey_count))]
    pub fn new(key: Key) -> Surveyed
        ensures { result.key ≡ key }
    {
        Surveyed {
            key,
            survey: survey(key),
        }
    }

    // The stages that take effect.
    #[tactic(auto, using(crate::proofs::Surveys::survey_active, crate::proofs::Surveys::no_more))]
    pub fn active(&self) -> &[Stage]
        ensures stages { result.now ≡ active self.now.key.stages }
        ensures few { length result.now ≤ 8 }
    {
        &self.key.stages[..self.survey.count]
    }
}
