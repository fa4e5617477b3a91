ghost use Rattle.layout.specs.Laws.{Decodes};

// The laws of the layout: a script's node list and tables, read with the text, are that script and no other.
pub fn layout_stands()
    ensures { Decodes }
{}
