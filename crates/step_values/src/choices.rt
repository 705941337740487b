//! The choices of a step.

/// The union of what a function makes of each step of a value: it gets whether the value permits
/// the step, the step, and the rest.
macro_rules! each_step {
    ($value:expr, $steps:ident($($rest:expr),*)) => {{
        let low = $steps($value.permits(Step::LOW), Step::LOW, $($rest),*);
        let rise = $steps($value.permits(Step::RISE), Step::RISE, $($rest),*);
        let fall = $steps($value.permits(Step::FALL), Step::FALL, $($rest),*);
        let high = $steps($value.permits(Step::HIGH), Step::HIGH, $($rest),*);
        low.union(rise).union(fall.union(high))
    }};
}

pub(crate) use each_step;
