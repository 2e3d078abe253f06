// No code: what a reading or a writing of a lab trace says to a caller from C, a number, and what each place that was lent holds afterwards.
// The calls of `smb3seal` for traces keep to it.
#![tactic(auto)]
