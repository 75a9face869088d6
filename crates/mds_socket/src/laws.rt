//! What holds of the definitions alone. Each law is a function that does nothing; its contract is the law.
ghost use Rattle.mds_socket.specs.Laws.{WantOfMemoryIsWaitedFor};

/// Where there is no memory for one more connection, as the kind of the error says or its number, it is waited for, however
/// long: no such error ends a worker.
pub fn want_of_memory_is_waited_for()
    ensures { WantOfMemoryIsWaitedFor }
{}
