// Times counted back from the greatest one, in place: the latest ends so are the earliest starts of the windows mirrored in time.
#![tactic(auto)]

ghost use Rattle.std.specs.Prelude.{◌≡◌};
ghost use Rattle.joblist.specs.Limits.{time_column};
ghost use Rattle.joblist.specs.GoodList.{Within};
ghost use Rattle.mirrors.specs.Back.{counted_back};

use screen::MOST_TIME;

pub fn count_back(times: &mut [u32])
    requires { Within (time_column times.old) }
    ensures { times.new ≡ counted_back times.old }
{
    for time in times.iter_mut() {
        *time = MOST_TIME - *time;
    }
}
