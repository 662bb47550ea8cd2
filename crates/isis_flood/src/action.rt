/// The action that a received LSP requests, beyond the flooding itself. It has no fields, since all that it concerns is in the LSP's
/// header.
#[derive(Clone, Copy, Debug, PartialEq, Eq)]
pub enum LspAction {
    /// No further action.
    Kept,
    /// Originate the router's own LSP with a sequence number above that of this LSP.
    Reissue,
    /// Acknowledge this LSP at once.
    Ack,
    /// Drop the LSP: the LSDB is full.
    Full,
    /// Drop the LSP: its sequence number is 0.
    Zero,
}
