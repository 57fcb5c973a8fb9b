//! What a run by rounds is. A network whose files come and go piece by piece makes some turns, then some of its readers
//! and writers are tended, and it goes on: the laws here say that all its turns together are one schedule of the network
//! of the whole files, and on one thread its round robin, whatever the pieces were. Each is the contract of a function
//! without a body. No program makes such runs yet: these laws are what they will rest on.
#![tactic(auto)]

mod law;

pub use law::{
    a_fed_network_is_that_of_its_files, a_reader_of_pieces_reads_the_whole_file,
    a_run_by_rounds_is_one_schedule, a_writer_of_pieces_writes_the_whole_file,
    rounds_of_one_thread_are_its_round_robin, standard_components_read_and_write_files,
    steps_are_a_round_robin, turns_leave_the_files,
};
