// The counts of labels.
ghost use Rattle.std.specs.Prelude.{◌≡◌};
ghost use Rattle.trailer.specs.Counts.{no_counts, counted, same_counts};
ghost use Rattle.trailer.specs.Trailer.{stating};
ghost use Rattle.trailer.specs.Contract.{Countable};

use crate::{Counts, Form};
use label::{Label, TEST, TRAINING};
use shade::Shade;

impl Counts {
    // Written out, and no `Default`: `counted_from_one` starts from it.
    #[tactic(auto, unfolding(crate::specs::Counts::no_counts))]
    pub fn none() -> Counts
        ensures { result ≡ no_counts }
    {
        Counts {
            labels: 0,
            training: 0,
            test: 0,
            dark: 0,
            dark_test: 0,
        }
    }

    // The counts with one label more. A file has at most 1,024, which its writers and its reader have
    // tested by then: that is what the `requires` asks.
    #[tactic(auto, unfolding(crate::specs::Counts::counted, crate::specs::Counts::is_on, crate::specs::Counts::is_dark, crate::specs::Counts::is_dark_test))]
    pub fn with(self, label: Label) -> Counts
        requires { Countable self }
        ensures { result ≡ counted self label }
    {
        // A label of the penumbra is not dark.
        let dark = label.shade == Shade::Dark.code();
        Counts {
            labels: self.labels + 1,
            training: self.training + u32::from(label.side == TRAINING),
            test: self.test + u32::from(label.side == TEST),
            dark: self.dark + u32::from(dark),
            dark_test: self.dark_test + u32::from(dark && label.side == TEST),
        }
    }

    // What a trailer states of these counts.
    #[tactic(auto, unfolding(crate::specs::Trailer::stating))]
    pub fn stated(self, form: Form) -> Counts
        ensures { result ≡ stating form self }
    {
        match form {
            Form::Bytes16 => Counts {
                dark: 0,
                dark_test: 0,
                ..self
            },
            Form::Bytes24 => self,
        }
    }

    #[tactic(auto, unfolding(crate::specs::Counts::same_counts))]
    pub fn same(self, other: Counts) -> bool
        ensures { result ≡ same_counts self other }
    {
        Counts {
            labels: other.labels,
            ..self
        } == other
    }
}
