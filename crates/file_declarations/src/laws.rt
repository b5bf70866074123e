// What files tell, and the facts of their nodes.
ghost use Rattle.file_declarations.specs.FactsTold.{FilesTellTheirFacts};

/// What a file tells is what the facts of its nodes tell: of where a node stands only the file, the namespace and the
/// imports count.
pub fn files_tell_their_facts()
    ensures { FilesTellTheirFacts }
{}
