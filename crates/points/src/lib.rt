// Points at the edges of the rules, shown of the definitions that the theorems speak of.
#![tactic(auto)]

ghost use Rattle.points.specs.Points.{Points, WorkedDay};

// Nothing to run: the textbook's order, grant and refusal, the modules case, the store of 32, the sums at the edge.
pub fn points_stand()
    ensures { Points }
{}

// Nothing to run: the answers of the worked day.
pub fn worked_day_stands()
    ensures { WorkedDay }
{}
