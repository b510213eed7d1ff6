//! What the numbers of refusals, of the checker's reasons, of refused events and of faults mean, in one sentence each
//! (docs/commands.md).

ghost use Rattle.std.specs.Prelude.{◌≢◌, [], IfSome};

/// What a number says, which isn't nothing; `None` for one that isn't given.
pub fn meaning(number: u8) -> Option<&'static str>
    ensures { IfSome result (λ sentence. sentence.now ≢ []) }
{
    match number {
        0..=18 => meaning_of_refusal(number),
        19..=49 => meaning_of_event(number),
        50..=66 => meaning_of_fault(number),
        _ => meaning_of_no(number),
    }
}

fn meaning_of_refusal(number: u8) -> Option<&'static str>
    ensures { IfSome result (λ sentence. sentence.now ≢ []) }
{
    match number {
        2 => Some("a reference is `const`, as `const C &`, or there is none"),
        3 => Some("a signature has at most 8 parameters, and a binding at most 8 formal sources"),
        4 => Some("no token begins here"),
        5 => Some("this isn't in the grammar"),
        6 => Some(
            "at most 32 brackets are open at once, and at most 200 tokens stand together without `;`, `{` or `}`",
        ),
        7 => Some(
            "a text has at most 1048576 bytes, a program at most 256 classes, 64 natives, 1000 wires, 1000 owns and 1000 bindings, and a class at most 64 methods and 32 properties",
        ),
        10 => Some(
            "two classes have one name, or a class is named `QObject`, `int`, `bool` or `QString`",
        ),
        11 => Some("a base has to stand before its class"),
        12 => Some(
            "a name is declared twice: two methods with as many parameters, two properties, parameters, formal sources or bindings, or a name in a native's list",
        ),
        13 => Some(
            "a name isn't declared: a class, a member with as many parameters, a parameter or a formal source, or what stands before a `.` is no object",
        ),
        14 => Some(
            "a `notify` signal is one of the class, with no parameter or with one of the property's type",
        ),
        15 => Some(
            "a type is `int`, `bool`, `QString` or a pointer to a declared class, and bindings and natives take no pointers",
        ),
        16 => Some("a line of the script is no event"),
        17 => Some("the program declares a native for which this tool has no code"),
        18 => Some(
            "a native is declared with other parameters, reads, emits or sets than its code has",
        ),
        _ => None,
    }
}

fn meaning_of_event(number: u8) -> Option<&'static str>
    ensures { IfSome result (λ sentence. sentence.now ≢ []) }
{
    match number {
        30 => Some("an object's name is given once in a run, and this one was used before"),
        31 => Some("no object has this name"),
        32 => Some("the object of this name is dead"),
        33 => Some("there is no such class"),
        34 => Some("no `owns` lets the parent's class own the child's"),
        35 => Some("the child is the parent itself or one of its ancestors"),
        36 => Some("the two objects live in different event loops"),
        37 => Some("a run has at most 100000 objects"),
        38 => Some("no `wire` of the program covers this connection"),
        39 => Some("the method takes other types than the first ones of the signal"),
        40 => Some("the two are connected already, and the connection is `unique`"),
        41 => Some("the two aren't connected"),
        42 => Some("there is no such event loop"),
        43 => Some("an event loop of this name is there already"),
        44 => Some("the binding isn't declared, or asks other sources"),
        45 => Some("a value isn't of the declared type"),
        46 => Some("the object has no such property, signal or method, with as many parameters"),
        48 => Some(
            "the object has a parent, and only an object without one changes its event loop",
        ),
        49 => Some("a binding would join objects of two event loops"),
        _ => None,
    }
}

fn meaning_of_fault(number: u8) -> Option<&'static str>
    ensures { IfSome result (λ sentence. sentence.now ≢ []) }
{
    match number {
        60 => Some(
            "a value isn't of the type that an operator, a statement, a property or a binding asks",
        ),
        61 => Some("an activation would nest deeper than the command allows"),
        62 => Some("a chain of bindings would lead from a property back to itself"),
        63 => Some("an object would die while a body of it is active"),
        64 => Some("the limit of steps was used up"),
        65 => Some("no memory was left"),
        66 => Some("the run has stopped"),
        _ => None,
    }
}

fn meaning_of_no(number: u8) -> Option<&'static str>
    ensures { IfSome result (λ sentence. sentence.now ≢ []) }
{
    match number {
        70 => Some("the types of a wire's second signature aren't a prefix of the first one's"),
        71 => Some("a literal, a body or a binding isn't typed"),
        72 => Some("a node of the program has no line in the certificate"),
        73 => Some(
            "a line of the certificate is for no node, or a second one for it, or names a class that isn't there",
        ),
        74 => Some("a rank doesn't fall along an edge"),
        75 => Some("a destroy set lacks a class, or that of a slot or a native has its own class"),
        76 => Some("a rank isn't below the bound, or the bound is over 256"),
        77 => Some("the certificate isn't in its grammar"),
        _ => None,
    }
}
