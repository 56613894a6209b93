// A refusal that hands something back.
use super::refusal::Refusal;

// Why the call was refused, and what it was given by value. What it hands back must be taken on: it is let go only where its type may be.
pub struct Declined<T> {
    pub refusal: Refusal,
    pub back: T,
}
