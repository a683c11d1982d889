// The C functions: the libraries' calls on numbers and slices. A slice passes as a pointer and a length. A call with an output returns
// the number of the check that failed, 0 where none did, and gives the bytes written, or those needed, through its last argument.
// include/calicofern.h declares them and says what each promises.
#![tactic(auto)]

mod attributes;
mod buffers;
mod conversions;
mod declared;
mod editing;
mod lists;
mod runs;
mod saving;
mod told;
mod unified;
mod values;
