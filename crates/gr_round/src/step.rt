use gr_batch::Stage;

/// What a place does next in a round or in a rebuild: it computes a stage, sends the batch of a computed one to a
/// party, appends to its log, reports, waits for the batch of a stage of a party, or has nothing to do. Only in a
/// rebuild it appends.
#[derive(Clone, Copy, Debug, PartialEq, Eq)]
pub enum Step {
    Compute,
    Send(u8),
    Append,
    Report,
    Wait(Stage, u8),
    Rest,
}
