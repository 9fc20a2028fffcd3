//! Whether a walk gives a name.
ghost use Rattle.q_scan.specs.Fits.{IsFitOf};

use q_model::{Area, Moment, Name, due_of};

/// Whether a walk gives a name.
#[derive(Clone, Copy, Debug, PartialEq, Eq)]
pub(crate) enum Fit {
    Given,
    /// It has another form than the names of its area.
    Other,
    /// It is due after the moment, and so is each name behind it.
    Later,
}

/// Whether a walk of the area gives this name by the moment, which counts in deferred alone.
pub(crate) fn fit_of(area: Area, name: Name, until: Moment) -> Fit
    ensures { IsFitOf area until name result }
{
    if area != Area::Deferred {
        return Fit::Given;
    }
    match due_of(name) {
        None => Fit::Other,
        Some((due, _)) => {
            if due > until {
                return Fit::Later;
            }
            Fit::Given
        }
    }
}
