// How bytes are judged as a frame, and what is wrong with those that are none: the rules in specs/, and what is proved of them. The
// call that keeps them is in decoding.
#![tactic(auto)]

// The two ends of the link.
#[derive(Clone, Copy)]
pub enum End {
    Box,
    Office,
}
