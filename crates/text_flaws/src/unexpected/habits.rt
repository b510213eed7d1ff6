//! What authors of Qt programs write by habit, and what this language has instead.
//!
//! To add a habit, write a line: where it is met, its tokens ("Patterns", `pattern.rt`), and what to write instead, in which
//! `@0@` stands for what the first word behind `^` fits, `@1@` for the next one, `@2..@` for what begins with the one after it,
//! up to the next `;` or brace, `@-1@` for the token in front of the unexpected token, and `@part@` for those of the innermost part in
//! front of the unexpected token, without its first one. The first line that fits counts.

use crate::unexpected::unexpected::Unexpected;
use texts::{Symbol, Word};
use token_reading::Wanted;

/// Where a habit is met: by what could come there.
#[derive(Clone, Copy)]
enum HabitContext {
    /// Anywhere.
    Any,
    Declaration,
    Member,
    Statement,
    /// A set of a group.
    Set,
    Operand,
    Operator,
    Literal,
    Kind,
    Event,
    /// The first word of a certificate's first two lines.
    Setting,
    /// The first word of a settling certificate.
    Settling,
    /// Anywhere in a line of a script or a certificate.
    Line,
    /// Behind a value among the arguments of an event.
    Argument,
    /// Behind an object or a class, in a line of a script or a certificate.
    Node,
    /// The first token of a program.
    First,
    /// A name, and no value.
    Name,
    /// The root of a path, and no value.
    Object,
    /// More of a type, or what may follow it.
    Type,
    /// The `{` of a class or a body.
    Brace,
    /// The `(` of parameters, arguments or a condition.
    Open,
    /// The `)` of parameters, arguments or a condition.
    Close,
    /// A `,`, and no end.
    Comma,
    /// The `,` between the parts of a statement.
    Part,
    Semicolon,
    Arrow,
    /// The `=` of a `set`.
    Assign,
    Dot,
    Number,
}

/// A habit.
pub struct Habit {
    spot: HabitContext,
    /// The tokens around the unexpected token.
    pub pattern: &'static str,
    /// What to write instead.
    pub advice: &'static str,
}

macro_rules! habits {
    ($($spot:ident $pattern:literal => $advice:literal;)*) => {
        &[$(Habit { spot: HabitContext::$spot, pattern: $pattern, advice: $advice },)*]
    };
}

/// Those of scripts and certificates.
pub fn in_lines() -> &'static [Habit] {
    habits! {
        Event "^ binding $name $name $name/$end" => "the event is called `bind`: write `bind @1..@`";
        Event "^ class/wire/owns/binding" => "this is a program: it comes before the script, as a file of its own or with a line `%%` behind it";
        Event "^ certificate/settling/bound/~" => "this is a certificate: it comes between the program and the script, as a file of its own or between two lines `%%`";
        Line "^ this" => "a script has no `this`: it names each object";
        Event "^ auto/const/var/let $name = new" => "an object is made by `new`: write `new @1@ @4@`";
        Event "^ auto/const/var/let * $name = new" => "an object is made by `new`: write `new @2@ @5@`";
        Event "^ $name = new $name" => "an object is made by `new`: write `new @0@ @3@`";
        Event "^ $name = $name (" => "an object is made by `new`: write `new @0@ @2@`";
        Event "^ $name $name = new" => "an object is made by `new`: write `new @1@ @0@`";
        Event "^ $name * $name = new" => "an object is made by `new`: write `new @2@ @0@`";
        Event "^ QObject : : connect/disconnect" => "write `@3@ a s() b m() queued`";
        Event "^ $name ./-> $name ./-> connect" => "a connection begins with `connect`: write `connect @0@ @2@() b m() queued`";
        Event "^ $name ./-> $name ./-> emit (" => "a signal is emitted by `emit`: write `emit @0@.@2@@5..@`";
        Event "^ Q_EMIT/raise/fire/trigger/send $path (" => "a signal is emitted by `emit`: write `emit @1..@`";
        Event "^ invoke/invokeMethod $path (" => "a slot is called by `call`: write `call @1..@`";
        Event "^ QMetaObject/QTimer" => "a slot is called by `call`: write `call o.f()`";
        Event "^ $name ./-> moveToThread ( $name" => "an object is moved by `move`: write `move @0@ @4@`";
        Event "^ $name ./-> setParent ( $name" => "an object gets a parent by `adopt`: write `adopt @4@ @0@`";
        Event "^ $name ./-> blockSignals ( true" => "signals are blocked by `block`: write `block @0@`";
        Event "^ $name ./-> blockSignals ( false" => "signals are let through by `unblock`: write `unblock @0@`";
        Event "^ del/destroy/remove/free/deleteLater $name" => "an object is deleted by `delete`: write `delete @1@`";
        Event "^ QThread/thread $name" => "an event loop is made by `loop`: write `loop @1@`";
        Event "^ exec/processEvents/wait/sleep/return" => "what is posted to an event loop is done by `turn`: write `turn main`";
        Event "^ $name ./-> exec/processEvents/wait (" => "what is posted to an event loop is done by `turn`: write `turn main`";
        Event "^ qDebug/console/print/get/show/assert/expect/check (/./$name" => "a run writes what happens, and a line `//= ..` below an event says what is to happen (`session`)";
        Event "^ if/for/foreach/while/repeat/group" => "a script is a list of events, without conditions, loops and groups";
        Event "^ $name (" => "a slot is called by `call`, a signal emitted by `emit`, both with their object: write `call o.@0..@`";
        Event "^ $path (" => "a slot is called by `call`, a signal emitted by `emit`: write `call @0..@`";
        Event "^ $name =" => "a property is set by `set`, with its object: write `set o.@0@ @2..@`";
        Event "^ $path =" => "a property is set by `set`: write `set @0@ @2..@`";
        Event "^ $name . $name :" => "a property is set by `set`: write `set @0@.@2@ @4..@`";
        Event "^ $name . $name $number/$text/true/false/null" => "a property is set by `set`: write `set @0..@`";
        Event "^ $path +/-/*" => "a script has no arithmetic: a slot does it, which `call` calls";
        Number "^ -" => "a rank has no sign";
        Literal "^ +" => "a number has no `+` in front of it";
        Line "$number/$text/$name ^ +/-/*" => "a script has no arithmetic: a value is a literal or an object";
        Line "set $name ^ =" => "a property is told with its object: write `set o.@-1@ @1..@`";
        Line "set $name ^ -> $name =" => "members are reached by `.`: write `set @-1@.@1@ @3..@`";
        Line "set $name ^ $name =" => "an object and its property have a `.` between them: write `set @-1@.@0@ @2..@`";
        Line "set/emit/call/delete/later/block/unblock/adopt/move/bind .. ^ &/* $name" => "an object is told by its name alone: write `@1@`";
        Line "set/emit/call $name ^ -> $name" => "members are reached by `.`: write `@-2@ @-1@.@1..@`";
        Line "set/emit/call $name ^ : : $name" => "members are reached by `.`: write `@-2@ @-1@.@2..@`";
        Line "set/emit/call $name ^ $name" => "an object and its member have a `.` between them: write `@-2@ @-1@.@0..@`";
        Line "set $name ^ $any" => "a property is told with its object: write `set o.@-1@ @0..@`";
        Line "set .. ^ =/==/:" => "the event `set` has no `@0@`: write `set @part@ @1..@`";
        Line "set/emit/call $name . $name ^ ./->" => "an event names an object itself, and no property that leads to it";
        Line "delete/later/block/unblock $name ^ ./->" => "this event takes an object, and nothing of it";
        Line "set .. $name ^ ./->" => "a value is a literal or an object, and not an object's property";
        Line "emit/call $name ^ (" => "a method is told with its object: write `@-2@ o.@-1@@0..@`";
        Line "emit/call $name ^ $end" => "a method is told with its object: write `@-2@ o.@-1@()`";
        Argument "$name ^ ./->" => "a value is a literal or an object, and not an object's property";
        Argument "int/bool/QString ^ $name" => "an argument is a value alone, without its type";
        Argument "$name ^ :/=" => "an argument is a value alone, without a name";
        Argument "$number/$text/$name ^ $number/$text/$name/$word" => "the arguments have commas between them";
        Argument "^ $end/;" => "a `)` is missing before this";
        Line "emit/call .. ^ $end" => "the arguments stand in parentheses, also none: write `@part@()`";
        Line "new $name ^ =/:/, $name" => "`new` takes the object's name and its class: write `new @-1@ @1@`";
        Line "new $name $name ^ (" => "`new` takes the object's name and its class: write `new @-2@ @-1@`";
        Line "new $name ^ $end/(" => "`new` takes the object's name and its class: write `new a @-1@`";
        Line "connect ^ (" => "a connection has neither parentheses nor commas: write `connect a s() b m() queued`";
        Line "disconnect ^ (" => "a connection has neither parentheses nor commas: write `disconnect a s() b m()`";
        Line "connect .. ^ ./:/->/," => "the parts of a connection have blanks alone between them: write `connect a s() b m() queued`";
        Line "disconnect .. ^ ./:/->/," => "the parts of a connection have blanks alone between them: write `disconnect a s() b m()`";
        Line "connect .. single ^ unique" => "`unique` stands before `single`";
        Line "disconnect .. ^ auto/direct/queued" => "`disconnect` gives no kind: leave `@0@` out";
        Name "connect/disconnect .. $name ^ (" => "an object stands in front of each signature: write `connect a s() b m() queued`";
        Line "move/adopt $name ^ ->/,/: $name" => "the names have blanks alone between them: write `@-2@ @-1@ @1@`";
        Line "move/adopt $name to ^ $name" => "the names have blanks alone between them: write `@-3@ @-2@ @0@`";
        Line "adopt $name ^ $end" => "the parent comes first, and then the child: write `adopt p @-1@`";
        Line "move $name ^ $end" => "an event loop follows the object: write `move @-1@ main`";
        Line "loop/turn ^ $end/(" => "an event loop has a name: write `@-1@ io`";
        Line "bind $name ^ (/./=/:" => "a binding is told by its name, and then the objects alone: write `bind n target source`";
        Name "connect/disconnect .. ) ^ $end" => "an object and its signature follow, as `b m()`";
        Line "connect/disconnect .. $name ^ $end" => "a signature follows the object, as `changed(int)`";
        Settling "^ certificate" => "this is a certificate without steps, which is taken without `--settling`: `certify --settling` makes a settling one";
        Setting "^ settling" => "this is a settling certificate, which `check`, `run` and `session` take with `--settling`: `certify` makes one without steps";
        Setting "^ class/wire/owns/binding" => "this is a program: it comes before the certificate, as a file of its own or with a line `%%` behind it";
        Setting "^ new/loop/connect/set/emit/call" => "this is a script: it comes behind a certificate, as a file of its own or with a line `%%` before it";
        Setting "^ $any" => "its first line is `certificate 2`, its second one `bound N`; with `--settling` they are `settling 1` and `bound B S`";
        Number "$number ^ $end" => "in a settling certificate a step stands behind the bound, and behind each rank";
        Node "^ $any" => "a member stands behind its object or its class, with a `.` between them";
        Name "~/$name .. $number/$name ^ ~" => "`~C` stands for the closure of a class in `certificate 2`, and not in `certificate 1`";
    }
}

/// Those of what begins no declaration, and of the heads of classes.
pub fn of_declarations() -> &'static [Habit] {
    habits! {
        Declaration "^ }" => "this `}` closes nothing";
        Declaration "^ ;" => "leave this `;` out: at most one follows a class";
        First "^ new/loop/turn/adopt/move/bind/block/unblock $name" => "this is a script: it comes behind the program, as a file of its own or with a line `%%` before it";
        Declaration "^ certificate/settling/bound $number" => "this is a certificate: it comes behind the program, as a file of its own or with a line `%%` before it";
        Declaration "^ new/loop/turn/adopt/move/bind/block/unblock $name" => "this is an event: events stand in the script, which comes behind the program, as a file of its own or with a line `%%` before it";
        Declaration "^ connect" => "a program says which connections may be made: write `wire A s() -> B m() queued;`; a body or a script makes them";
        Declaration "^ QObject : : connect" => "a program says which connections may be made: write `wire A s() -> B m() queued;`; a body or a script makes them";
        Declaration "^ set/emit/call/if/disconnect/delete/later/group" => "this stands in the body of a slot, or is an event of a script";
        Declaration "^ public/protected/private/abstract/virtual/export class" => "leave `@0@` out";
        Declaration "^ property/signal/slot/native/public/protected/private/signals/slots/Q_OBJECT/Q_SIGNALS/Q_SLOTS/Q_PROPERTY" => "a member stands in a class, and the last class is closed in front of it";
        Declaration "^ namespace" => "there are no namespaces: write the classes alone";
        Declaration "^ struct/enum/union/typedef/using/template/interface" => "there are classes alone, and no `@0@`";
        Declaration "^ import/include/module/export" => "a program is one text, and takes in no other";
        Declaration "^ void/int/bool/QString/auto/static/inline/const/constexpr/extern/unsigned/double/float/var/let/function/def" => "there are no functions and variables outside of classes";
        Declaration "^ $name {" => "a class is declared by `class @0@ { .. }`, and an object is made by a script";
        Declaration "^ $name : $name {" => "a class begins with its word: write `class @0@ : @2@ { .. }`";
        Declaration "^ $name . $name :/=" => "one property follows another by a binding: write `binding n @0@.@2@ (C a) = a.p;`";
        Declaration "^ $name ./-> $name" => "this stands in the body of a slot, or is an event of a script";
        Declaration "^ $name owns $name" => "write `owns @0@ @2@;`";
        Declaration "^ $name = new $name" => "an object is made by a script: write `new @0@ @3@` there";
        Declaration "^ $name $name ;/=" => "an object is made by a script: write `new @1@ @0@` there";
        Declaration "^ $name * $name" => "an object is made by a script: write `new @2@ @0@` there";
        Brace "class .. ^ ;" => "a class is declared once, with its members: write `class .. { .. }`";
        Brace "class .. public/protected/private/virtual ^ $name" => "a base has no `@-1@`: write `class @-3@ : @0@`";
        Brace "class .. ^ ," => "a class has one base at most";
        Brace "class .. ^ final" => "leave `final` out";
        Brace "class $name ^ < $name >" => "there are no templates";
        Brace "class $name ^ extends/implements/</( $name" => "a base stands behind `:`: write `class @-1@ : @1@ { .. }`";
        Brace "class $name ^ $name" => "a class has one name: leave `@-1@` out";
    }
}

/// Those of what begins no member.
pub fn of_members() -> &'static [Habit] {
    habits! {
        Member "^ Q_OBJECT/Q_GADGET/QML_ELEMENT" => "leave `@0@` out: every class has a meta-object";
        Member "^ Q_PROPERTY ( $name $name" => "write `property @2@ @3@ notify changed(@2@);`";
        Member "^ Q_PROPERTY" => "write `property int p notify changed(int);`";
        Member "^ Q_INVOKABLE/Q_SIGNAL/Q_SLOT/Q_SCRIPTABLE" => "write `signal` or `slot` in the place of `@0@ @1@`";
        Member "^ Q_ENUM/Q_FLAG/Q_CLASSINFO/Q_INTERFACES/Q_DISABLE_COPY" => "leave `@0@` out: there is nothing like it";
        Member "^ signals/slots/public/protected/private/Q_SIGNALS/Q_SLOTS" => "there are no sections: write `signal` or `slot` before each member";
        Member "^ explicit $name (" => "there are no constructors: a property may have a first value, as `property int x = 5;`";
        Member "^ virtual ~" => "there are no destructors: `destroyed()` is emitted where an object dies";
        Member "^ virtual/static/inline/explicit/constexpr/friend/mutable/readonly/required/default" => "leave `@0@` out: a member begins with `property`, `signal`, `slot` or `native`";
        Member "^ using/typedef/enum/struct/template" => "there is no `@0@`: a class has properties, signals, slots and natives";
        Member "^ function/method/func/def" => "write `slot` in the place of `@0@`";
        Member "^ ~" => "there are no destructors: `destroyed()` is emitted where an object dies";
        Member "^ set/emit/call/if/connect/disconnect/delete/later" => "a statement stands in the body of a slot";
        Member "^ group {" => "a group stands in the body of a slot";
        Member "^ ;" => "leave this `;` out: a slot ends with its `}`";
        Member "^ const $name $name" => "there are no constants: write `property @1..@;`";
        Member "^ const" => "a variable of an object is a property: write `property const ..`";
        Member "^ $name (" => "a method begins with `slot`, and there are no constructors: write `slot @0@(..) { .. }`";
        Member "^ void $name (" => "a member begins with `signal`, `slot` or `native`, and has no result type: write `slot @1@(..) { .. }`";
        Member "^ int/bool/QString $name (" => "a slot gives no value, and a property is read without one: leave `@1@` out, or write `slot @1@(..) { .. }`";
        Member "^ $name $name ;/=" => "a variable of an object is a property: write `property @0..@;`";
        Member "^ $name $name ," => "each property has a declaration of its own: write `property @0@ @1@;`";
        Member "^ $name * $name" => "a variable of an object is a property: write `property @0@* @2@;`";
        Member "^ std : :" => "a variable of an object is a property, of the type `int`, `bool` or `QString`, or a pointer to a class";
        Member "^ $name <" => "there are no templates and no lists: a type is `int`, `bool`, `QString`, or a pointer to a class";
        Member "^ $name = Signal/pyqtSignal (" => "write `signal @0@@3..@;`";
        Member "^ $name =" => "a property has its word and its type: write `property int @0..@;`";
        Member "^ $name :" => "a member has no `:`: write `property int p = 5;`, or a slot and a `wire` that leads to it";
        Member "^ $name {" => "an object is made by a script, and not in a class";
    }
}

/// Those of types, parameters and what follows them.
pub fn in_members() -> &'static [Habit] {
    habits! {
        Any "unsigned/signed/long/short int/long/char/short ^ $any" => "each number is an `int`: leave `@-2@` out";
        Type "std ^ : : $name" => "there is no `std::@2@`: a type is `int`, `bool`, `QString`, or a pointer to a class";
        Type "^ $name" => "a signature lists types alone: leave the parameter's name out";
        Comma "*/& ^ $name" => "a signature lists types alone: leave the parameter's name out";
        Type "^ <" => "there are no templates and no lists: a type is `int`, `bool`, `QString`, or a pointer to a class";
        Name "property int/bool/QString ^ ;/=/notify" => "a name is missing before this";
        Name "property $name ^ =/;" => "a property has a type and a name: write `property int @-1@;`";
        Name "property/signal/slot/native ^ :" => "leave this `:` out";
        Name "property .. notify ^ :/(" => "a notify signal is told by its types: write `notify changed(int)`";
        Name "property $name ^ : $name" => "the type comes first, and then the name: write `property @1@ @-1@;`";
        Any "signal/slot/native .. $name ^ : $name" => "a parameter's type comes first, and then its name: write `@1@ @-1@`";
        Literal "^ nullptr/NULL/Q_NULLPTR" => "write `null`";
        Literal "^ True/TRUE" => "write `true`";
        Literal "^ False/FALSE" => "write `false`";
        Literal "^ ;" => "a value is missing before this";
        Literal "^ $name/this" => "a property's first value is a literal";
        Any "^ 2147483648" => "2147483648 stands in a literal alone, behind a `-`";
        Any "$number ^ $tail" => "a number has decimal digits alone: there is no `0x`, no exponent and no suffix";
        Any "$number ^ ." => "there are no fractions, only whole numbers";
        Any ". ^ $number" => "there are no fractions, only whole numbers";
        Semicolon "property .. ^ READ/WRITE/NOTIFY/MEMBER/RESET/CONSTANT/BINDABLE" => "there are no accessors: write `property int p notify changed(int);`";
        Semicolon "property .. ^ ," => "each property has a declaration of its own";
        Semicolon "property alias $name ^ :" => "there are no aliases: a `binding` lets a property follow another one";
        Semicolon "property .. ^ +/-/*" => "a property's first value is a literal";
        Semicolon "property .. ) ^ =" => "a first value stands in front of `notify`";
        Semicolon "property .. ^ :" => "a property's first value stands behind `=`";
        Semicolon "property .. ^ {" => "a property has no body: write `;`";
        Semicolon "property .. ^ (" => "a property has no parameters: write `;`, or `signal` or `slot` in the place of `property`";
        Open "property .. notify $name ^ ;" => "a notify signal is told with its types: write `notify @-1@()`, or `notify @-1@(int)` with the property's type";
        Open "native .. emits/, $name ^ $any" => "a signal is told with its types, as `@-1@(int)`";
        Name "native .. emits ^ $any" => "a signal is told with its types, as `changed(int)`";
        Semicolon "native .. ^ (" => "`reads` and `sets` name properties, and `emits` has signatures";
        Open "signal/slot/native .. $name ^ $name" => "a method has no result type: leave `@-1@` out";
        Open "signal/slot/native .. ^ : :" => "a method is declared in its class: leave `@-1@::` out";
        Open "signal/slot/native .. ^ */</&" => "a method has no result type";
        Comma "signal/slot/native .. ^ ; $name $name" => "the parameters have commas between them";
        Open "signal/slot/native .. ^ $any" => "the parameters stand in parentheses, also none: write `@-1@()`";
        Any "signal/slot/native .. $name ^ =" => "there are no default arguments: declare a second method with fewer parameters";
        Name "slot .. ( void ^ )" => "where there are no parameters, nothing stands in the parentheses";
        Name "slot .. ^ ,/)" => "each parameter of a slot has a name";
        Brace "slot .. ) ^ override" => "there is no `override`: a slot of a base keeps its body, and a class below it has no other one of that name with as many parameters";
        Any "signal/slot/native .. ) ^ const/override/final/noexcept" => "leave `@0@` out";
        Brace "slot .. ^ ->" => "a method has no result type";
        Brace "slot .. ) ^ $any" => "this needs a body: write `{ .. }`";
        Semicolon "signal/native .. ^ {" => "signals and natives have no body: write `;`";
        Any "native .. ^ reads/emits/sets" => "the lists of a native stand in this order: `reads`, `emits`, `sets`";
    }
}

/// Those of wires, `owns`, bindings and kinds.
pub fn in_declarations() -> &'static [Habit] {
    habits! {
        Name "wire .. ^ ./:/&/*/(/,/{" => "a class and a signature have a blank between them: write `wire A s() -> B m() direct;`";
        Open "wire .. ^ $any" => "a signature has its types in parentheses, also none: write `@-1@()`";
        Arrow "wire .. ^ $any" => "write `->` between the two ends";
        Semicolon "wire .. ^ unique/single/," => "a wire has a kind alone: who connects says `unique` and `single`";
        Any "owns .. ^ ,/->/;/*/:/owns" => "the parent's class comes first, and then the child's: write `owns Parent Child;`";
        Name "binding .. ^ ." => "a binding has a name of its own: write `binding n @-1@.p (..) = ..;`";
        Name "binding $name ^ $any" => "a binding names its property: write `binding @-1@ C.p (D a) = a.q;`";
        Name "binding .. ^ )/:/," => "a formal source is a class and a name: write `(D a)`";
        Dot "binding $name $name ^ $any" => "a class and its property have a `.` between them: write `binding n C.p (D a) = a.q;`";
        Assign "binding .. ^ $any" => "the expression stands behind `=`: write `binding n C.p (D a) = a.q;`";
        Open "binding .. ^ =/:/$name" => "the formal sources stand in parentheses, also none: write `@-1@ () = ..`";
        Name "binding .. ^ *" => "a formal source is a class and a name, without a `*`";
        Kind "wire .. ^ unique/single" => "a wire has a kind alone, `auto`, `direct` or `queued`: who connects says `unique` and `single`";
        Kind "^ unique/single" => "the kind stands in front of `@0@`: write `auto`, `direct` or `queued` there";
    }
}

/// Those of what begins no statement.
pub fn of_statements() -> &'static [Habit] {
    habits! {
        Statement "if .. { ^ return ;" => "there is no `return`: turn the condition round, and put what follows into the block: write `if (!(..)) { .. }`";
        Statement "^ $path = new" => "a body makes no objects: the event `new` of a script does";
        Statement "^ return ;" => "there is no `return`: at the end of a body leave it out, else put what follows into `else { .. }`";
        Statement "^ return" => "a slot gives no value: what it finds out is written to a property, as `set this.p = ..;`";
        Statement "^ while/for/do/break/continue/goto/foreach" => "a body has no loops";
        Statement "^ switch/case" => "there is no `@0@`: write an `if` for each case";
        Statement "^ try/throw/catch" => "there are no exceptions";
        Statement "^ Qt : : beginPropertyUpdateGroup/endPropertyUpdateGroup" => "properties are updated together by `group { set ..; }`";
        Statement "^ Qt/QTimer/QMetaObject" => "what is to be done later is brought by a `queued` wire: emit its signal";
        Statement "^ qApp/QCoreApplication/QApplication/QEventLoop" => "a body runs no event loop: the event `turn` of a script does";
        Statement "^ qDebug/qWarning/qInfo/qCritical/print/printf/console/Q_ASSERT/assert" => "a body writes nothing: the trace of a run says what happens";
        Statement "^ std : :" => "there is nothing of `std`, and there are no local variables";
        Statement "^ void/function $name (" => "a slot stands in a class, and not in a body: write `slot @1@(..) { .. }` behind this one";
        Statement "^ self ./->" => "the object itself is `this`, and not `self`";
        Statement "^ $name ./-> emit (" => "a signal is emitted by `emit`: write `emit @0@@3..@;`";
        Statement "^ this ./-> $name ./-> emit (" => "a signal is emitted by `emit`: write `emit @2@@5..@;`";
        Statement "^ $name/this ./-> $name ./-> connect (" => "a connection begins with `connect`: write `connect @0@, @2@(), b, m(), queued;`";
        Statement "^ Q_EMIT/emits/raise/fire/trigger/send/notify $name (" => "a signal is emitted by `emit`: write `emit @1..@;`";
        Statement "^ sets" => "write `set`";
        Statement "^ deleteLater (" => "an object is deleted later by `later`: write `later this;`";
        Statement "^ this ./-> deleteLater (" => "an object is deleted later by `later`: write `later this;`";
        Statement "^ blockSignals/moveToThread/setParent (" => "a body doesn't do this: the events `block`, `move` and `adopt` of a script do";
        Statement "^ this ./-> blockSignals/moveToThread/setParent (" => "a body doesn't do this: the events `block`, `move` and `adopt` of a script do";
        Statement "^ QScopedPropertyUpdateGroup" => "properties are updated together by `group { set ..; }`";
        Statement "^ QObject : : connect/disconnect" => "write `@3@ a, s(), b, m(), queued;`";
        Statement "^ new" => "a body makes no objects: the event `new` of a script does";
        Statement "^ auto/const/static/var/let/int/bool/QString/double/float/qreal/unsigned/long/uint/qint64/quint32" => "there are no local variables: a value that is kept is a property";
        Statement "^ $name */</& $name" => "there are no local variables: a value that is kept is a property";
        Statement "^ else" => "`else` stands right behind the `}` of its `if`";
        Statement "^ {" => "a block stands behind `if` and `else` alone";
        Statement "^ ;" => "leave this `;` out: there is no empty statement";
        Statement "^ $name =" => "an assignment begins with `set`, and names the object: write `set this.@0..@;`";
        Statement "^ $path =" => "an assignment begins with `set`: write `set @0..@;`";
        Statement "^ $name : : $name (" => "a call names its object: write `call this.@3..@;`";
        Statement "^ $name (" => "a call begins with `call`, an emission with `emit`: write `call this.@0..@;` or `emit @0..@;`";
        Statement "^ this ./-> $name (" => "a call begins with `call`, an emission with `emit`: write `call this.@2..@;` or `emit @2..@;`";
        Statement "^ $path (" => "a call begins with `call`: write `call @0..@;`";
        Statement "^ $name +/-/* =" => "there is no `@1@=`: write `set this.@0@ = this.@0@ @1@ @3..@;`";
        Statement "^ $path +/-/* =" => "there is no `@1@=`: write `set @0@ = @0@ @1@ @3..@;`";
        Statement "^ $name +/- +/-" => "there is no `@1@@2@`: write `set this.@0@ = this.@0@ @1@ 1;`";
        Statement "^ $path +/- +/-" => "there is no `@1@@2@`: write `set @0@ = @0@ @1@ 1;`";
        Statement "^ +/- +/- $name" => "there is no `@0@@1@`: write `set this.@2@ = this.@2@ @0@ 1;`";
        Statement "^ +/- +/- $path" => "there is no `@0@@1@`: write `set @2@ = @2@ @0@ 1;`";
    }
}

/// Those of what follows the first word of a statement.
pub fn in_statements() -> &'static [Habit] {
    habits! {
        Any "group ^ ./=/(" => "an assignment is `set this.p = ..;`, a call `call this.f(..);`";
        Brace "group ^ set" => "the sets of a group stand in braces: write `group { set ..; }`";
        Brace "^ ;" => "this needs a body: write `{ .. }`";
        Set "group { ^ }" => "a group has one `set` at least";
        Set "^ $any" => "a group holds sets alone, each as `set this.p = ..;`";
        Any "set .. ^ +/-/* =" => "there is no `@0@=`: write `set @part@ = @part@ @0@ @2..@;`";
        Any "set .. ^ +/- +/- ;" => "there is no `@0@@1@`: write `set @part@ = @part@ @0@ 1;`";
        Assign "set .. ^ ==" => "an assignment has one `=`";
        Assign "set .. ^ : =" => "an assignment has a `=` alone: write `set @part@ = @2..@;`";
        Assign "set .. ^ :" => "an assignment has a `=`: write `set @part@ = @1..@;`";
        Assign "set .. ^ ," => "each `set` writes one property";
        Assign "set .. ^ (" => "a property is set by `set o.p = ..;`, and a slot is called by `call o.f(..);`";
        Dot "set $name ^ =" => "a property is written on an object: write `set this.@-1@ @0..@;`";
        Dot "set $name ^ $name/$word/$number/$text" => "a property is written on an object: write `set this.@-1@ = @0..@;`";
        Name "emit ^ this ./-> $name (" => "`emit` takes the signal's name alone: write `emit @2..@;`";
        Name "emit ^ this" => "an object emits its own signals alone: call a slot of the other one, which emits it";
        Open "emit $name ^ ./->" => "an object emits its own signals alone: call a slot of the other one, which emits it";
        Open "emit $name ^ : : $name" => "`emit` takes the signal's name alone: write `emit @2..@;`";
        Dot "call $name ^ : : $name" => "a slot is called on an object: write `call this.@2..@;`";
        Dot "call $name ^ (" => "a slot is called on an object: write `call this.@-1@@0..@;`";
        Open "emit/call .. ^ ;/}" => "the arguments stand in parentheses, also none: write `@-1@()`";
        Open "emit/call .. ^ $name/$word/$number/$text" => "the arguments stand in parentheses: write `@part@(@0..@)`";
        Brace "else ^ if" => "`else` is followed by a block: write `else { if (..) { .. } }`";
        Brace "else ^ group" => "`else` is followed by a block: write `else { group { .. } }`";
        Brace "else ^ $any" => "`else` is followed by a block: write `else { @0..@; }`";
        Brace "if .. ) ^ return ;" => "there is no `return`: turn the condition round, and put what follows into the block: write `if (!(..)) { .. }`";
        Brace "if .. ) ^ then" => "leave `then` out";
        Brace "if .. ) ^ if/group" => "the block of an `if` has braces, also around one statement: write `{ @0@ .. }`";
        Brace "if .. ) ^ $any" => "the block of an `if` has braces, also around one statement: write `{ @0..@; }`";
        Open "if ^ $any" => "the condition of an `if` stands in parentheses: write `if (@0..@) { .. }`";
        Name "connect ^ (" => "there are no parentheses behind this word: write `connect a, s(), b, m(), queued;`";
        Name "disconnect ^ (" => "there are no parentheses behind this word: write `disconnect a, s(), b, m();`";
        Name "delete/later ^ ( $path )" => "there are no parentheses behind this word: write `@-1@ @1@`";
        Name "emit/set/call/delete/later/new/adopt/move/block/unblock/bind ^ (" => "there are no parentheses behind this word";
        Semicolon "delete/later .. deleteLater ^ (" => "`later` alone deletes an object later: leave `.deleteLater()` out";
        Any "SIGNAL/SLOT ( $name ^ (" => "there is no `@-3@`: write the signature alone";
        Name "connect/disconnect .. ^ &" => "a signal or a slot is told by its signature, as `s(int)`";
        Open "connect/disconnect .. ^ : :" => "a signal or a slot is told without its class: leave `@-1@::` out";
        Open "connect/disconnect .. ^ $any" => "a signal or a slot is told by its signature: write `@-1@()`";
        Any "connect .. ^ Qt" => "write `auto`, `direct` or `queued`, and behind it `unique` or `single` where that is meant";
        Part "disconnect .. ^ $any" => "the parts of a connection have commas between them: write `disconnect a, s(), b, m();`";
        Semicolon "disconnect .. ^ ," => "`disconnect` gives no kind: it ends here";
        Part "connect .. ) ^ ;" => "a connection gives its kind: write `auto`, `direct` or `queued` at the end";
        Part "connect .. ^ $any" => "the parts of a connection have commas between them: write `connect a, s(), b, m(), queued;`";
        Semicolon "connect .. ^ unique/single" => "a comma stands in front of `@0@`";
        Semicolon "connect .. single ^ ," => "`unique` stands before `single`";
    }
}

/// Those of expressions.
pub fn in_expressions() -> &'static [Habit] {
    habits! {
        Operator "new ^ $name" => "a body makes no objects: the event `new` of a script does";
        Operator "not ^ $any" => "`not` is written `!`";
        Operator "^ and" => "`and` is written `&&`";
        Operator "^ or" => "`or` is written `||`";
        Operator "^ &" => "truth values are joined by `&&`, and there are no operators on bits";
        Operator "^ =" => "values are compared by `==`, and an assignment is a statement of its own";
        Operator "^ $text" => "texts are joined by `+`";
        Operator "tr/QString/QStringLiteral/QLatin1String ^ (" => "a text stands by itself, between `\"`";
        Operator "QString ^ :" => "there are no conversions: a number isn't made a text";
        Operator "int/bool/double/float ^ (" => "there are no casts: leave `@-1@` out";
        Operator "( int/bool/QString/double/float ) ^ $any" => "there are no casts: leave the type out";
        Any "static_cast/dynamic_cast/const_cast/qobject_cast < $name ^ >" => "there are no casts: leave the type out";
        Any "static_cast/dynamic_cast/const_cast/qobject_cast < $name * ^ >" => "there are no casts: leave the type out";
        Operator "int/bool/QString ^ $name" => "an argument is a value alone: leave its type out";
        Operator ". $name ^ ( )" => "a call has no value: a property is read by its name, without parentheses";
        Operator "$name ^ ( )" => "a call has no value: a property is read by `this.@-1@`, without parentheses";
        Operator "^ (" => "a call begins with `call` and has no value";
        Operator "^ </<=/>/>=/==/!=" => "comparisons don't chain: join two of them by `&&`";
        Operand "^ . $number" => "there are no fractions, only whole numbers";
        Operand "==/!= ^ =" => "`@-1@=` is written `@-1@`";
        Operand "< ^ >" => "`<>` is written `!=`";
        Operand "</> ^ </>" => "there are no operators on bits";
        Operand "^ ~" => "there are no operators on bits";
        Operand "+/-/* ^ =" => "there is no `+=` and the like: write `set this.p = this.p + ..;`";
        Operand "+ ^ +" => "there is no `++` and no `--`: write `set this.p = this.p + 1;`";
        Operand "- - ^ $any" => "there is no `++` and no `--`: write `set this.p = this.p + 1;`";
        Operand "^ +" => "a number has no `+` in front of it";
        Operand "^ */&" => "there is nothing like `*p` and `&a`: a property is read by `p.x`, also of a pointer";
        Operand "^ emit/call/new" => "a call has no value";
        Operand "^ ;/)/," => "a value is missing before this";
    }
}

/// Those that are met where no word is misspelled.
pub fn others() -> &'static [Habit] {
    habits! {
        Kind "^ $any/$end" => "a connection gives its kind: write `auto`, `direct` or `queued` at the end";
        Event "^ $name $name ;" => "an object is made by `new`: write `new @1@ @0@`";
        Event "^ $any" => "an event begins with `loop`, `turn`, `new`, `adopt`, `connect`, `disconnect`, `set`, `emit`, `call`, `bind`, `block`, `unblock`, `move`, `delete` or `later`";
        Line "^ ;" => "leave this `;` out: an event, and a line of a certificate, ends with its line";
        Line "^ ," => "the parts of a line have blanks alone between them";
        Any "^ ->" => "members are reached by `.`, also behind a pointer";
        Any "^ : :" => "there is no `::`: leave out what stands in front of it, too";
        Any ": ^ :" => "there is no `::`: leave out what stands in front of it, too";
        Any "^ :" => "a `:` stands in front of a base alone";
        Member "^ $name" => "a member begins with `property`, `signal`, `slot` or `native`, and has no result type";
        Statement "^ $name $name =/;/(" => "there are no local variables: a value that is kept is a property";
        Statement "^ $name" => "an assignment is `set this.p = ..;`, a call `call this.f(..);`";
        Name "^ &/*/&&/const" => "`const` stands once, and at most one `&` or `*` behind the class";
        Object "^ $word/$number/$text" => "an object is wanted here: `this`, or a parameter with its properties";
        Name "^ $word" => "this word is reserved, and so it is no name";
        Semicolon "^ (" => "a call begins with `call` and has no value";
        Close "^ ;/{/}/$end" => "a `)` is missing before this";
        Semicolon "^ $end" => "a `;` is missing at the end";
        Semicolon "^ $word/$name/$number/$text/}" => "a `;` is missing before this";
        Assign "^ $word/$name/$number/$text" => "a `=` is missing before this";
    }
}

impl Habit {
    /// Whether an unexpected token stands where the habit is met.
    pub fn is_at(&self, unexpected: Unexpected) -> bool {
        self.spot.holds(unexpected)
    }
}

impl HabitContext {
    /// Whether an unexpected token is at such a spot.
    fn holds(self, unexpected: Unexpected) -> bool {
        let comes = match self.wanted() {
            Some(wanted) => unexpected.wants(wanted),
            None => true,
        };
        let stays_away = match self.unwanted() {
            Some(unwanted) => !unexpected.wants(unwanted),
            None => true,
        };
        comes && stays_away && self.is_around(unexpected)
    }

    /// What could come there, if that is one thing.
    fn wanted(self) -> Option<Wanted> {
        let wanted = match self {
            HabitContext::Any | HabitContext::Setting | HabitContext::Line | HabitContext::Number =>
                return None,
            HabitContext::Declaration | HabitContext::First => Wanted::Word(Word::Wire),
            HabitContext::Member => Wanted::Word(Word::Property),
            HabitContext::Statement => Wanted::Word(Word::Emit),
            HabitContext::Set => Wanted::Word(Word::Set),
            HabitContext::Operand => Wanted::Symbol(Symbol::Not),
            HabitContext::Operator => Wanted::Symbol(Symbol::Or),
            HabitContext::Literal => Wanted::Text,
            HabitContext::Kind => Wanted::Word(Word::Auto),
            HabitContext::Event => Wanted::Verb,
            HabitContext::Settling => Wanted::Spelled(b"settling"),
            HabitContext::Name => Wanted::Name,
            HabitContext::Object => Wanted::Word(Word::This),
            HabitContext::Type => Wanted::Symbol(Symbol::Ampersand),
            HabitContext::Brace => Wanted::Symbol(Symbol::OpenBrace),
            HabitContext::Open => Wanted::Symbol(Symbol::Open),
            HabitContext::Close | HabitContext::Argument => Wanted::Symbol(Symbol::Close),
            HabitContext::Comma | HabitContext::Part => Wanted::Symbol(Symbol::Comma),
            HabitContext::Semicolon => Wanted::Symbol(Symbol::Semicolon),
            HabitContext::Arrow => Wanted::Symbol(Symbol::Arrow),
            HabitContext::Assign => Wanted::Symbol(Symbol::Assign),
            HabitContext::Dot | HabitContext::Node => Wanted::Symbol(Symbol::Dot),
        };
        Some(wanted)
    }

    /// What couldn't come there, and could at another spot that is like it.
    fn unwanted(self) -> Option<Wanted> {
        match self {
            HabitContext::Set => Some(Wanted::Word(Word::Emit)),
            HabitContext::Setting => Some(Wanted::Spelled(b"round")),
            HabitContext::Line => Some(Wanted::Word(Word::Wire)),
            HabitContext::Argument => Some(Wanted::Symbol(Symbol::Ampersand)),
            HabitContext::Literal | HabitContext::Open => Some(Wanted::Symbol(Symbol::Not)),
            HabitContext::Comma | HabitContext::Part | HabitContext::Assign => {
                Some(Wanted::Symbol(Symbol::Semicolon))
            }
            HabitContext::Name | HabitContext::Object | HabitContext::Number => Some(Wanted::Text),
            _ => None,
        }
    }

    /// Whether the unexpected token stands where this spot alone can be.
    fn is_around(self, unexpected: Unexpected) -> bool {
        match self {
            HabitContext::Setting => unexpected.is_in_line() && unexpected.wants_spelled(),
            HabitContext::Line | HabitContext::Argument | HabitContext::Node => {
                unexpected.is_in_line()
            }
            HabitContext::First => unexpected.at == 0,
            HabitContext::Part => !unexpected.is_in_line(),
            HabitContext::Number => unexpected.wants_number(),
            _ => true,
        }
    }
}
