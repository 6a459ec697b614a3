//! Laws of the definitions. Each is the contract of a function that does nothing.
ghost use Rattle.std.specs.Prelude.{◌≡◌, ◌≤◌, ◌+◌, ◌++◌, ℕ, List, Some, length};
ghost use Rattle.file_spec.specs.declared.frame_limits.TheConstants.{FRAME_HEAD_OCTETS, MOST_FRAMES_OCTETS};
ghost use Rattle.file_spec.specs.declared.frames.Frame.{Frame};
ghost use Rattle.file_spec.specs.declared.frames.FrameRefusal.{FrameRefusal};
ghost use Rattle.file_spec.specs.Frames.{AreFrames, Frames, frames_written, lasting_fault, read_frames};

/// What is read of any octets are frames: in order, and of at most 1048576 octets together.
pub fn read_are_frames()
    ensures { (octets : List ℕ) → AreFrames (read_frames octets).frames }
{}

/// Frames that are written are read back.
pub fn frames_are_read_back()
    ensures { (fs : List Frame) → AreFrames fs → Frames (frames_written fs) fs }
{}

/// What is read of octets is decided by their first 1048582: so who reads a file may stop there.
pub fn long_fronts_decide()
    ensures { (front rest : List ℕ) → MOST_FRAMES_OCTETS + FRAME_HEAD_OCTETS ≤ length front
        → read_frames (front ++ rest) ≡ read_frames front }
{}

/// Octets with a fault that lasts are read the same whatever follows them.
pub fn faults_last()
    ensures { (octets more : List ℕ) (fault : FrameRefusal) → lasting_fault octets ≡ Some fault
        → read_frames (octets ++ more) ≡ read_frames octets }
{}
