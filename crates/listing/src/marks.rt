// Which line the place of a refusal marks. There is no refusal of a program that is accepted, and nothing is marked.
use rules::answers::Reason;

// The record at an offset, or the first byte that is left over.
pub fn marks_record(refusal: Option<Reason>, at: usize) -> bool {
    matches!(refusal, Some(Reason::BadRecord { offset }) if offset == at)
}

pub fn marks_constructor(refusal: Option<Reason>, c: usize) -> bool {
    matches!(refusal, Some(Reason::BadConstructor { constructor }) if constructor == c)
}

pub fn marks_signature(refusal: Option<Reason>, g: usize) -> bool {
    matches!(refusal, Some(Reason::BadSignature { function }) if function == g)
}

pub fn marks_bound(refusal: Option<Reason>, g: usize) -> bool {
    matches!(refusal, Some(Reason::UnboundedArgument { function, .. }) if function == g)
}

pub fn marks_instruction(refusal: Option<Reason>, g: usize, i: usize) -> bool {
    match refusal {
        Some(
            Reason::BadFlow(place)
            | Reason::BadTypes(place)
            | Reason::TooManyForms(place)
            | Reason::NotCovered(place),
        ) => place.function == g && place.instruction == i,
        _ => false,
    }
}

// Whether the flow rules, 7, have passed, so that the types of the stack can be worked out.
pub fn flow_passed(refusal: Option<Reason>) -> bool {
    matches!(
        refusal,
        None | Some(Reason::BadTypes(_) | Reason::TooManyForms(_) | Reason::NotCovered(_))
    )
}
