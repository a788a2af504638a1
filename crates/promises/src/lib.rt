// The demands for the code: theorems alone, in proofs/, about any outcomes of `read_frame`, `write_frame` and
// `read_stream_header`.
#![tactic(auto)]
