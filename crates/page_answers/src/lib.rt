//! What a request is answered over a port to a site: the order of the answers, the entries that
//! they use, and the bytes. Definitions alone.
#![tactic(auto)]
