//! Fetching the output that waits first into the caller's buffers.

ghost use Rattle.channel_c.specs.Fetched.{FetchEnds};

use crate::channel::OpenChannel;
use crate::codes::{DONE, NONE_WAITS, SHORT};
use crate::grants::Grant;
use crate::head::{OutputHead, head_of};
use crate::putting::put_output;

impl OpenChannel {
    /// Fetches the output that waits first: its head, and its bytes and grants into the buffers. If
    /// they do not fit, the head says how long they are, and the output waits on.
    #[tactic(auto, using(crate::proofs::FetchLemmas::fetch_none, crate::proofs::FetchLemmas::fetch_short, crate::proofs::FetchLemmas::fetch_done))]
    pub fn fetch(&mut self, head: &mut OutputHead, bytes: &mut [u8], grants: &mut [Grant]) -> u32
        ensures { FetchEnds result head.new bytes.old bytes.new grants.old grants.new self.old self.new }
    {
        if self.fetched >= self.outs.len() {
            return NONE_WAITS;
        }
        let out = &self.outs[self.fetched];
        *head = head_of(out);
        if !put_output(out, bytes, grants) {
            return SHORT;
        }
        self.fetched += 1;
        DONE
    }
}
