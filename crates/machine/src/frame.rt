// An entry of the first stack: a waiting expression, by its own node and its progress.

// How many arguments an application holds: three cases, so no option.
#[derive(Clone, Copy)]
pub enum Held {
    None,
    One,
    More,
}

#[derive(Clone, Copy)]
pub enum Frame {
    // an if that waits for its test
    Test(u16),
    // an if that waits for the arm chosen
    Arm(u16),
    // a begin, with the node of the part that comes next
    Part(u16, u16),
    // a let that waits for the value of a name, with the node that comes next, and how many names it binds in all
    Binding(u16, u16, u16),
    // a let or a case that waits for its body or branch, with how many names leave then
    Leaving(u16, u16),
    // a case that waits for its tested value
    Tested(u16),
    // an application that waits for its head's function
    Head(u16),
    // an application that waits for an argument, with the node of the one that comes next, the arguments held, and the function
    Argument(u16, u16, Held, u32),
    // the same for an application of a constructor
    Field(u16, u16),
    // a call that waits for the function's body, with the function's number of parameters; or a val name, with none
    Body(u16, u16),
    // main's call
    Main,
}
