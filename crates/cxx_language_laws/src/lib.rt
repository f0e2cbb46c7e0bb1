//! What holds of every reading of a unit with expressions: what its calls mean, and that what stops it is true.
#![tactic(auto)]

ghost use Rattle.std.specs.Prelude.{◌≡◌, ℕ, List, Ok, Err};
ghost use Rattle.cxx_model.specs.declared.fault.FaultText.TheVariants as says;
ghost use Rattle.cxx_model.specs.declared.options.Options.{Options};
ghost use Rattle.cxx_model.specs.declared.stop.Fault.{Fault};
ghost use Rattle.cxx_model.specs.Stops.{Faulty};
ghost use Rattle.cxx_model.specs.Text.Lexemes.{Lexeme};
ghost use Rattle.cxx_reading.specs.Units.{CxxReading};
ghost use Rattle.cxx_language.specs.Units.{unit_reading};
ghost use Rattle.cxx_language_laws.specs.Best.{EachCallIsBest};
ghost use Rattle.cxx_language_laws.specs.Told.{IsAmbiguousFault, IsChoiceText, IsToldFault, IsUndeclaredFault};

/// Each call of a whole reading means the viable function of its name, declared before it, that is better than every other
/// viable one (13.3.3). Its candidates are all functions that its name means where it stands (3.4.1, 7.3.4), or in the
/// namespace or the class that its qualifiers mean (3.4.3), and, where it has no qualifiers and no brackets stand round it, those that
/// the types of its arguments find besides (3.4.2). Those of a call of a member are all members of the class of the object with
/// that name (5.2.5, 10.2, 13.3.1.1.1), and the object comes before the arguments. Where the name has qualifiers behind the
/// object, they are the members of the class that these mean there: the first of them is looked up in the class of the object,
/// and where that has no such member, where the call stands (3.4.5). A call by a name without an object, with qualifiers or
/// none, that means functions of a class where it stands has an object too (9.3.1, 13.3.1.1.1): `*this`, where it stands in the
/// body of a function that has one, outside of default arguments, and that is of the class or of one derived from it, and else
/// one that is made up. Its candidates are what the name means and no others. Each is viable or not for the first reason that
/// holds (13.3.2), and what the call keeps of them is so.
pub fn each_call_is_best()
    ensures { (options : Options) (tokens : List Lexeme) (reading : CxxReading) → unit_reading options tokens ≡ Ok reading → EachCallIsBest reading }
{}

/// Where the choice of a function stops a reading (13.3), whole declarations were read before, and the reading of the next
/// stops, part in part: in a namespace or a linkage, in specifiers, in a member of a class that is defined among them (9.2) or
/// a friend of it (11.4), behind its bases where it has some (clause 10), in a declarator, an initializer, a default argument
/// that is read behind the class (8.3.6) or an expression of a statement. From there on a state is reached that keeps what was
/// declared, in the same scope, in one of parameters that begins later, or in the namespace or the class of a member that is
/// declared outside of it (8.3, 9.4.2), and a call stands there with the last part of its name where the fault is. Once its
/// arguments are read, none of the functions that it may mean is viable for them, or none is the best. Where the name means
/// functions of a class, that is so for an object and the arguments: for `*this`, or for an object that is made up (9.3.1,
/// 13.3.1.1.1). The evidence has exactly a line for each candidate with its reason, or for each viable function with the first
/// other one that it is not better than.
/// Or a function of the class of an object was read behind `.` or `->`, its arguments stand there, and the fault is where its
/// name is. Once they are read, none of the members with that name is viable for the object and the arguments, or none is the
/// best: of the members of its class, or of the class that the qualifiers of the name mean there (3.4.5, 5.2.2, 13.3.1.1.1).
pub fn choice_faults_are_told()
    ensures { (options : Options) (tokens : List Lexeme) (fault : Fault) → unit_reading options tokens ≡ Err (Faulty fault) → IsChoiceText fault.text → IsToldFault tokens fault }
{}

/// Where a name stops a reading as undeclared (3.4), whole declarations were read before, and the reading of the next stops,
/// part in part: in a namespace or a linkage, in another name of a namespace, a using-declaration or a directive, in
/// specifiers, in the bases of a class that is defined among them (clause 10), in a member of it (9.2), a friend of it (11.4)
/// or a using-declaration in it (7.3.3), in a declarator, an initializer, a default argument that is read behind the class
/// (8.3.6) or an expression of a statement. From there on a state is reached that keeps what was declared, in the same scope,
/// in one of parameters that begins later, or in the namespace or the class of a member that is declared outside of it (8.3,
/// 9.4.2), and a name stands there of which a part stands where the fault is: the last one, or one before `::` (3.4.3). Its
/// lookup finds nothing: of a called name once its arguments are read, whose types find nothing either (3.4.2); behind `enum`
/// (3.4.4), of a base and of a class that is a friend, of types alone, and in an alias or a directive, of namespaces (3.4.6).
/// So no scope from there outward to that of the unit (3.3.5) declares the name, nor has a class whose scope is one of them a
/// member with it, itself or by its bases (10.2), nor does a namespace that a directive of one of them reaches declare it
/// (7.3.4); behind qualifiers, neither their namespace nor one that is searched by its directives (3.4.3.2), or, where they
/// mean a class, that has no member with it, itself or by its bases (3.4.3.1, 10.2). The name of a base is looked up where its
/// class is declared.
/// Or an object was read, `.` or `->` stands there, and behind it a name of which the last part stands where the fault is: its
/// lookup in the class of the object, or in that of what the pointer points to, or in the class that its qualifiers mean, finds
/// nothing (5.2.5, 10.2). A function that is found there and called is looked up again once its arguments are read: a fault with
/// an empty word says that this finds no value (5.2.2). Or a part before `::` of such a name stands where the fault is (3.4.5),
/// and its lookup finds nothing: that of the first one where the name stands, since the class of the object has no such member,
/// or in the scope of the unit behind `::` alone (3.4.3), and that of another in the namespace or the class that those before it
/// mean. Then nothing there declares it, as above.
/// Or the word `using` stands there, and behind it a name of which the last part stands where the fault is: its lookup as a
/// member of the class that its qualifiers mean finds nothing (7.3.3, 10.2). One before `::` is looked up as in any name, and so
/// is one behind `::` alone, which is none of a class.
pub fn undeclared_names_are_told()
    ensures { (options : Options) (tokens : List Lexeme) (fault : Fault) (word : List ℕ) → unit_reading options tokens ≡ Err (Faulty fault) → fault.text ≡ says.UndeclaredName word → IsUndeclaredFault tokens fault word }
{}

/// Where a name stops a reading as ambiguous (3.4, 7.3.4), whole declarations were read before, and the reading of the next
/// stops, part in part, as above. From there on a state is reached in which a part of a name stands where the fault is, and
/// its lookup finds two entities that are no overloads: in an expression, behind `enum`, of a base or a class that is a
/// friend, in an alias, a using-declaration or a directive, before `::`, or of a called name once its arguments are read. The
/// evidence has the places of the two, and nothing else.
/// Or its lookup finds two members of a class round the name, or of one that its qualifiers mean (3.4.3.1), that do not go
/// together (3.4.1, 10.2): each is declared in a
/// subobject to which bases lead, nothing in between declares the name, and the two are of different classes, or one of the
/// name is nonstatic. The evidence has the places of the two with the bases that lead to each.
/// Or an object was read, and the name behind `.` or `->` is looked up in its class, or in the class that its qualifiers mean
/// (5.2.5), and again once its arguments are read where it is called (5.2.2): two such members are found, and the evidence has
/// the places of the two with the bases that lead to each. Or a part before `::` of such a name stands where the fault is
/// (3.4.5): its lookup finds two entities, or two such members of a class, and the evidence is as above.
/// Or the word `using` stands there, and the last part of the name behind it is looked up as a member of the class that its
/// qualifiers mean (7.3.3): two such members are found, and the evidence has the places of the two with the bases that lead to
/// each.
pub fn ambiguous_names_are_told()
    ensures { (options : Options) (tokens : List Lexeme) (fault : Fault) (word : List ℕ) → unit_reading options tokens ≡ Err (Faulty fault) → fault.text ≡ says.AmbiguousName word → IsAmbiguousFault tokens fault word }
{}
